// States of every public function what its code does, and that it does this alone, from the contract that the code meets.
//
// There is no function here. The demands cite these statements (promise_demands), so they cannot be proved over a contract that is weaker,
// or that asks something of its caller. specs/Calls.antt has the calls of the rules, specs/Blocks.antt the building blocks below them, and
// specs/InC.antt the calls in C; specs/NoField.antt says that a refused call hands out no field. Assumes nothing.
#![tactic(auto)]
