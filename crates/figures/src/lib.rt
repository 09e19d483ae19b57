// The worked figures of document 01, as statements about the definitions: see specs/.
#![tactic(auto)]
