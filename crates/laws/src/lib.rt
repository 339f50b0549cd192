// Definitions and laws that know nothing of mounts: they stand in specs/, and no code belongs to them.
#![tactic(auto)]
