// What a trace of saves leaves and tells where it is run on a list: see specs/.
#![tactic(auto)]
