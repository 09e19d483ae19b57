// Verdict sheets: what a row holds, the sheet judged from a file, and how judging ends: see specs/.
#![tactic(auto)]
