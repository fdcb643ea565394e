// No code: what is promised of every past is said in specs/, as definitions over calls and answers, and proved there of
// what the calls do (`rules`). That the functions do so, and what follows of a program, is shown in `promises`.

#![tactic(auto)]
