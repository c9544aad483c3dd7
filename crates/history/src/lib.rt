// What the scans alone say of an alarm: definitions over lists of scans, and their theorems. There is no code here; the
// alarm's step is tied to these definitions where it is defined.
#![tactic(auto)]
