// No code: round trips of the byte layouts, the marked cases, and the wrong programs that they shut out.
#![tactic(auto)]
