// Conduct: what the calls keep to. Each row is given exactly when its turn comes, acceptance in plain words, what every call leaves alone, and soundness kept.
// It rests on desk, whose functions are proved equal to the definitions that these laws speak of, and on ledger_laws; it has definitions and laws alone, and serves demands 1 and 2.

#![tactic(auto)]
