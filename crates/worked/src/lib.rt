// Definitions and laws only (specs/, proofs/): the worked sheets and the printed example, each computed by the definitions that find's contract cites, and
// the sheet of zero bytes, question by question. A crate of its own spares find's edits the computing.
#![tactic(auto)]
