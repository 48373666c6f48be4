// Sets of places by which an ES chooses: their definitions. A set is a number that has a bit for each place.
#![tactic(auto)]
