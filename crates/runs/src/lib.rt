// Theorems over runs. No function stands here: what they say is in specs/, over the definitions of `rules` alone.
#![tactic(auto)]
