//! The steps of inserts and removals that were written down beforehand; those of one kind on one cell share lines.

/// Insert into the empty anchor.
pub(crate) const INTO_THE_EMPTY_ANCHOR: &str = "\
epoch\n\
pin 1\n\
begin anchor\n\
read anchor[1]\n\
check anchor\n\
take leaves word 0\n\
take leaves word 0 lowest\n\
write leaves#0[0] := 0x1\n\
write leaves#0[1] := 0x1\n\
write leaves#0[2] := 0x100000000000000\n\
write leaves#0[3] := 0x0\nwrite leaves#0[4] := 0x0\nwrite leaves#0[5] := 0x0\n\
write leaves#0[6] := 0x0\nwrite leaves#0[7] := 0x0\nwrite leaves#0[8] := 0x0\n\
write leaves#0[9] := 0x0\n\
check anchor\n\
upgrade anchor\n\
write anchor[1] := 0x1\n\
commit anchor\n\
pin 0\n\
";

/// Insert of a key that is there.
pub(crate) const OF_A_KEY_THAT_IS_THERE: &str = "\
epoch\n\
pin 1\n\
begin anchor\n\
read anchor[1]\n\
check anchor\n\
read leaves#0[0]\nread leaves#0[1]\nread leaves#0[2]\n\
check anchor\n\
pin 0\n\
";

/// Insert where another leaf stands.
pub(crate) const WHERE_ANOTHER_LEAF_STANDS: &str = "\
epoch\n\
pin 1\n\
begin anchor\n\
read anchor[1]\n\
check anchor\n\
read leaves#0[0]\nread leaves#0[1]\nread leaves#0[2]\n\
check anchor\n\
take leaves word 0\n\
take leaves word 0 lowest\n\
write leaves#1[0] := 0x5\n\
write leaves#1[1] := 0x1\n\
write leaves#1[2] := 0x500000000000000\n\
write leaves#1[3] := 0x0\nwrite leaves#1[4] := 0x0\nwrite leaves#1[5] := 0x0\n\
write leaves#1[6] := 0x0\nwrite leaves#1[7] := 0x0\nwrite leaves#1[8] := 0x0\n\
write leaves#1[9] := 0x0\n\
take n4 word 0\n\
take n4 word 0 lowest\n\
check anchor\n\
upgrade anchor\n\
claim n4#0\n\
write n4#0[1] := 0x2\n\
write n4#0[2] := 0x0\nwrite n4#0[3] := 0x0\nwrite n4#0[4] := 0x0\nwrite n4#0[5] := 0x0\n\
write n4#0[6] := 0x0\nwrite n4#0[7] := 0x0\nwrite n4#0[8] := 0x0\nwrite n4#0[9] := 0x0\n\
write n4#0[10] := 0x105000000000000\n\
write n4#0[11] := 0x1\n\
write n4#0[12] := 0x9\n\
write n4#0[13] := 0x0\nwrite n4#0[14] := 0x0\n\
write anchor[1] := 0x2\n\
commit anchor\n\
release n4#0\n\
pin 0\n\
";

/// Insert at a free entry.
pub(crate) const AT_A_FREE_ENTRY: &str = "\
epoch\n\
pin 1\n\
begin anchor\n\
read anchor[1]\n\
check anchor\n\
begin n4#0\n\
check anchor\n\
read n4#0[1]\nread n4#0[10]\n\
check n4#0\n\
take leaves word 0\n\
take leaves word 0 lowest\n\
write leaves#2[0] := 0x3\n\
write leaves#2[1] := 0x1\n\
write leaves#2[2] := 0x300000000000000\n\
write leaves#2[3] := 0x0\nwrite leaves#2[4] := 0x0\nwrite leaves#2[5] := 0x0\n\
write leaves#2[6] := 0x0\nwrite leaves#2[7] := 0x0\nwrite leaves#2[8] := 0x0\n\
write leaves#2[9] := 0x0\n\
read n4#0[2]\nread n4#0[3]\nread n4#0[4]\nread n4#0[5]\nread n4#0[6]\nread n4#0[7]\n\
read n4#0[8]\nread n4#0[9]\nread n4#0[11]\nread n4#0[12]\nread n4#0[13]\nread n4#0[14]\n\
check n4#0\n\
upgrade n4#0\n\
write n4#0[1] := 0x3\n\
write n4#0[10] := 0x103050000000000\n\
write n4#0[12] := 0x11\n\
write n4#0[13] := 0x9\n\
commit n4#0\n\
pin 0\n\
";

/// Insert into a full Node4.
pub(crate) const INTO_A_FULL_NODE4: &str = "\
epoch\n\
pin 1\n\
begin anchor\n\
read anchor[1]\n\
check anchor\n\
begin n4#0\n\
check anchor\n\
read n4#0[1]\nread n4#0[10]\n\
check n4#0\n\
take leaves word 0\n\
take leaves word 0 lowest\n\
write leaves#4[0] := 0x5\n\
write leaves#4[1] := 0x1\n\
write leaves#4[2] := 0x500000000000000\n\
write leaves#4[3] := 0x0\nwrite leaves#4[4] := 0x0\nwrite leaves#4[5] := 0x0\n\
write leaves#4[6] := 0x0\nwrite leaves#4[7] := 0x0\nwrite leaves#4[8] := 0x0\n\
write leaves#4[9] := 0x0\n\
take n16 word 0\n\
take n16 word 0 lowest\n\
read n4#0[2]\nread n4#0[3]\nread n4#0[4]\nread n4#0[5]\nread n4#0[6]\nread n4#0[7]\n\
read n4#0[8]\nread n4#0[9]\nread n4#0[11]\nread n4#0[12]\nread n4#0[13]\nread n4#0[14]\n\
check anchor\n\
check n4#0\n\
upgrade anchor\n\
upgrade n4#0\n\
claim n16#0\n\
write n16#0[1] := 0x5\n\
write n16#0[2] := 0x0\nwrite n16#0[3] := 0x0\nwrite n16#0[4] := 0x0\n\
write n16#0[5] := 0x0\nwrite n16#0[6] := 0x0\nwrite n16#0[7] := 0x0\n\
write n16#0[8] := 0x0\nwrite n16#0[9] := 0x0\n\
write n16#0[10] := 0x102030405000000\n\
write n16#0[11] := 0x0\n\
write n16#0[12] := 0x1\n\
write n16#0[13] := 0x9\n\
write n16#0[14] := 0x11\n\
write n16#0[15] := 0x19\n\
write n16#0[16] := 0x21\n\
write n16#0[17] := 0x0\nwrite n16#0[18] := 0x0\nwrite n16#0[19] := 0x0\n\
write n16#0[20] := 0x0\nwrite n16#0[21] := 0x0\nwrite n16#0[22] := 0x0\n\
write n16#0[23] := 0x0\nwrite n16#0[24] := 0x0\nwrite n16#0[25] := 0x0\n\
write n16#0[26] := 0x0\nwrite n16#0[27] := 0x0\n\
write anchor[1] := 0x3\n\
commit anchor\n\
release n4#0\n\
release n16#0\n\
epoch\n\
pin 0\n\
";

/// Insert where the prefix differs.
pub(crate) const WHERE_THE_PREFIX_DIFFERS: &str = "\
epoch\n\
pin 1\n\
begin anchor\n\
read anchor[1]\n\
check anchor\n\
begin n4#0\n\
check anchor\n\
read n4#0[1]\nread n4#0[2]\n\
check n4#0\n\
take leaves word 0\n\
take leaves word 0 lowest\n\
write leaves#2[0] := 0x3\n\
write leaves#2[1] := 0x2\n\
write leaves#2[2] := 0x203000000000000\n\
write leaves#2[3] := 0x0\nwrite leaves#2[4] := 0x0\nwrite leaves#2[5] := 0x0\n\
write leaves#2[6] := 0x0\nwrite leaves#2[7] := 0x0\nwrite leaves#2[8] := 0x0\n\
write leaves#2[9] := 0x0\n\
take n4 word 0\n\
take n4 word 0 lowest\n\
read n4#0[3]\nread n4#0[4]\nread n4#0[5]\nread n4#0[6]\nread n4#0[7]\nread n4#0[8]\n\
read n4#0[9]\nread n4#0[10]\nread n4#0[11]\nread n4#0[12]\nread n4#0[13]\nread n4#0[14]\n\
check anchor\n\
check n4#0\n\
upgrade anchor\n\
upgrade n4#0\n\
claim n4#1\n\
write n4#1[1] := 0x2\n\
write n4#1[2] := 0x0\nwrite n4#1[3] := 0x0\nwrite n4#1[4] := 0x0\nwrite n4#1[5] := 0x0\n\
write n4#1[6] := 0x0\nwrite n4#1[7] := 0x0\nwrite n4#1[8] := 0x0\nwrite n4#1[9] := 0x0\n\
write n4#1[10] := 0x102000000000000\n\
write n4#1[11] := 0x2\n\
write n4#1[12] := 0x11\n\
write n4#1[13] := 0x0\nwrite n4#1[14] := 0x0\n\
write anchor[1] := 0xa\n\
write n4#0[1] := 0x2\n\
write n4#0[2] := 0x0\n\
commit anchor\n\
release n4#0\n\
release n4#1\n\
pin 0\n\
";

/// Remove of the root leaf.
pub(crate) const OF_THE_ROOT_LEAF: &str = "\
epoch\n\
pin 1\n\
begin anchor\n\
read anchor[1]\n\
check anchor\n\
read leaves#0[0]\nread leaves#0[1]\nread leaves#0[2]\n\
check anchor\n\
check anchor\n\
upgrade anchor\n\
write anchor[1] := 0x0\n\
commit anchor\n\
epoch\n\
pin 0\n\
";

/// Remove that leaves a leaf.
pub(crate) const THAT_LEAVES_A_LEAF: &str = "\
epoch\n\
pin 1\n\
begin anchor\n\
read anchor[1]\n\
check anchor\n\
begin n4#0\n\
check anchor\n\
read n4#0[1]\nread n4#0[10]\nread n4#0[12]\n\
check n4#0\n\
read leaves#1[0]\nread leaves#1[1]\nread leaves#1[2]\n\
check n4#0\n\
read n4#0[2]\nread n4#0[3]\nread n4#0[4]\nread n4#0[5]\nread n4#0[6]\nread n4#0[7]\n\
read n4#0[8]\nread n4#0[9]\nread n4#0[11]\nread n4#0[13]\nread n4#0[14]\n\
check anchor\n\
check n4#0\n\
upgrade anchor\n\
upgrade n4#0\n\
write anchor[1] := 0x1\n\
commit anchor\n\
release n4#0\n\
epoch\n\
pin 0\n\
";

/// Remove that leaves an inner node.
pub(crate) const THAT_LEAVES_AN_INNER_NODE: &str = "\
epoch\n\
pin 1\n\
begin anchor\n\
read anchor[1]\n\
check anchor\n\
begin n4#1\n\
check anchor\n\
read n4#1[1]\nread n4#1[10]\nread n4#1[12]\n\
check n4#1\n\
read leaves#2[0]\nread leaves#2[1]\nread leaves#2[2]\n\
check n4#1\n\
read n4#1[2]\nread n4#1[3]\nread n4#1[4]\nread n4#1[5]\nread n4#1[6]\nread n4#1[7]\n\
read n4#1[8]\nread n4#1[9]\nread n4#1[11]\nread n4#1[13]\nread n4#1[14]\n\
begin n4#0\n\
check n4#1\n\
read n4#0[1]\nread n4#0[2]\nread n4#0[3]\nread n4#0[4]\nread n4#0[5]\nread n4#0[6]\n\
read n4#0[7]\nread n4#0[8]\nread n4#0[9]\nread n4#0[10]\nread n4#0[11]\nread n4#0[12]\n\
read n4#0[13]\nread n4#0[14]\n\
check anchor\n\
check n4#1\n\
check n4#0\n\
upgrade anchor\n\
upgrade n4#1\n\
upgrade n4#0\n\
write anchor[1] := 0x2\n\
write n4#0[1] := 0x202\n\
write n4#0[2] := 0x100000000000000\n\
commit anchor\n\
release n4#1\n\
release n4#0\n\
epoch\n\
pin 0\n\
";

/// Remove of one of three rows.
pub(crate) const OF_ONE_OF_THREE: &str = "\
epoch\n\
pin 1\n\
begin anchor\n\
read anchor[1]\n\
check anchor\n\
begin n4#0\n\
check anchor\n\
read n4#0[1]\nread n4#0[10]\nread n4#0[13]\n\
check n4#0\n\
read leaves#2[0]\nread leaves#2[1]\nread leaves#2[2]\n\
check n4#0\n\
read n4#0[2]\nread n4#0[3]\nread n4#0[4]\nread n4#0[5]\nread n4#0[6]\nread n4#0[7]\n\
read n4#0[8]\nread n4#0[9]\nread n4#0[11]\nread n4#0[12]\nread n4#0[14]\n\
check n4#0\n\
upgrade n4#0\n\
write n4#0[1] := 0x2\n\
write n4#0[10] := 0x102000000000000\n\
write n4#0[13] := 0x0\n\
commit n4#0\n\
epoch\n\
pin 0\n\
";

/// Remove that shrinks a Node16.
pub(crate) const THAT_SHRINKS_A_NODE16: &str = "\
epoch\n\
advance\n\
watch 1\n\
watch 2\n\
watch 3\n\
watch 4\n\
watch 5\n\
watch 6\n\
watch 7\n\
give leaves#4\n\
epoch\n\
pin 3\n\
begin anchor\n\
read anchor[1]\n\
check anchor\n\
begin n16#0\n\
check anchor\n\
read n16#0[1]\nread n16#0[10]\nread n16#0[15]\n\
check n16#0\n\
read leaves#3[0]\nread leaves#3[1]\nread leaves#3[2]\n\
check n16#0\n\
take n4 word 0\n\
take n4 word 0 lowest\n\
read n16#0[2]\nread n16#0[3]\nread n16#0[4]\nread n16#0[5]\nread n16#0[6]\n\
read n16#0[7]\nread n16#0[8]\nread n16#0[9]\nread n16#0[11]\nread n16#0[12]\n\
read n16#0[13]\nread n16#0[14]\nread n16#0[16]\nread n16#0[17]\nread n16#0[18]\n\
read n16#0[19]\nread n16#0[20]\nread n16#0[21]\nread n16#0[22]\nread n16#0[23]\n\
read n16#0[24]\nread n16#0[25]\nread n16#0[26]\nread n16#0[27]\n\
check anchor\n\
check n16#0\n\
upgrade anchor\n\
upgrade n16#0\n\
claim n4#0\n\
write n4#0[1] := 0x3\n\
write n4#0[2] := 0x0\nwrite n4#0[3] := 0x0\nwrite n4#0[4] := 0x0\nwrite n4#0[5] := 0x0\n\
write n4#0[6] := 0x0\nwrite n4#0[7] := 0x0\nwrite n4#0[8] := 0x0\nwrite n4#0[9] := 0x0\n\
write n4#0[10] := 0x102030000000000\n\
write n4#0[11] := 0x1\n\
write n4#0[12] := 0x9\n\
write n4#0[13] := 0x11\n\
write n4#0[14] := 0x0\n\
write anchor[1] := 0x2\n\
commit anchor\n\
release n16#0\n\
release n4#0\n\
epoch\n\
pin 0\n\
";

/// Sixty-four leaves are in use: the word of the last is found empty, and the next has one; a larger node is needed too.
pub(crate) const INTO_THE_NEXT_WORD: &str = "\
take leaves word 0\n\
take leaves word 1\n\
take leaves word 1 lowest\n\
take n48 word 0\n\
take n48 word 0 lowest\n\
";

/// The next word is where the last leaf was found.
pub(crate) const WHERE_ONE_WAS_FOUND: &str = "\
take leaves word 1\n\
take leaves word 1 lowest\n\
";

/// A leaf of the first word goes back, and is taken again.
pub(crate) const WHERE_ONE_WENT_BACK: &str = "\
give leaves#3\n\
take leaves word 0\n\
take leaves word 0 lowest\n\
";
