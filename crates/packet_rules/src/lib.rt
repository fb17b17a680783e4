// A RADIUS packet with the place of a Message-Authentication-Code (source document 004, section 3.3; document 02, request 8): its attributes,
// its tests, its MAC, and what is shown of signing and checking it. There is no code here: the crate `packet_mac` walks, signs
// and checks, and its contracts are written with these definitions.
#![tactic(auto)]
