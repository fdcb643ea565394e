// No code: what the calls do is said in specs/, as definitions, and proved there. What the calls take and answer stands
// in `answers`, the functions in the crates above, and what is promised of all calls together in `promised`.

#![tactic(auto)]
