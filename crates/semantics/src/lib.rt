// What a statement's answers are. No function stands here: the definitions are in specs/, with small statements computed (Cases).

#![tactic(auto)]
