// Demands: what document 00 asks, a file a demand in specs/, a field a sentence; proved in proofs/. It has no code of its own.
// It speaks of desk's definitions of the calls, to which the calls' functions are proved equal for every input, and rests on call_laws, which has the laws of the calls.

#![tactic(auto)]
