// Cases: how closely the calls are held. The proved edges P1 to P12 in one table, any two outcomes that a contract allows, and desks that the promises shut out.
// It rests on history's runs and on desk, whose functions are proved equal to the definitions that a run is made of, and on front for the functions exported;
// it has definitions and laws alone.

#![tactic(auto)]
