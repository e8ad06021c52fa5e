// What the calls answer and leave of lent memory: the definitions meet the plain statements of `promises`; no code.
#![tactic(auto)]
