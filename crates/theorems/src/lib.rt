// Nothing runs here: what the calls promise together stands in proofs/Demand.antt, its proofs beside it.
#![tactic(auto)]
