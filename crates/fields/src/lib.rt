// The kinds of field of stations and headers, tables of fields, and the station's table: see specs/.
#![tactic(auto)]
