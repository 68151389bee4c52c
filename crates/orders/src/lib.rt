#![tactic(auto)]

// What an order of keys owes, for numbers and for pairs of them: laws alone.
