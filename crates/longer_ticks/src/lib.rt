// Theorems about larger numbers, in specs/ and proofs/: tasks that pass, or are assured, in ticks that are K times as long do so in their own. There is no code here.
#![tactic(auto)]
