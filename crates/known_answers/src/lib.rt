// The papers' marked examples, as rows of one table that is proved about the definitions, and one of them at every limit. There is no code here.
// Beside the table stands what is about several crates together: of decoder and report the first sum of a block that settles after one sweep, of
// margin and panel that a covered block, loaded and swept call by call, comes to the codeword that was sent.
#![tactic(auto)]
