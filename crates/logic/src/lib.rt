// Definitions and laws only (specs/, proofs/): the sheet as a reader sees it, structures, the codes of terms, satisfaction,
// candidates, the orders on answers, and the view of a sheet by functions in which the search is proved.
#![tactic(auto)]
