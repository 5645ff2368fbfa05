// The laws of replays: a replay answers as the ledger does, every list of calls has a script, and a log tells the answers.
#![tactic(auto)]
