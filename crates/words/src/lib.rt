// Definitions and laws about words over totally ordered letters. There is no code to run: definitions stand in specs/, theorems there and in proofs/.
#![tactic(auto)]
