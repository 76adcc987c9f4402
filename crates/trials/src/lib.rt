// The second table of cases. No function stands here: the rows and their one claim are in specs/, over the definitions of `rules` alone.
#![tactic(auto)]
