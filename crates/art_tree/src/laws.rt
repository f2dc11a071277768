//! The laws of the tree of cells, and of the words that cells are written in: each is the contract of a function with
//! nothing to do.
ghost use Rattle.std.specs.Prelude.{◌≡◌, ◌<◌, ◌^◌, ℕ, List, Some, None};
ghost use Rattle.std.specs.FinMap.{empty, entries};
ghost use Rattle.art_cell.specs.declared.cells.Node.{Node as NodeOf};
ghost use Rattle.art_cell.specs.declared.cells.Link.{Link as LinkOf};
ghost use Rattle.art_cell.specs.declared.cells.Link.TheVariants.{Node as node};
ghost use Rattle.art_cell.specs.declared.cells.Cell.{Cell as CellOf};
ghost use Rattle.art_tree.specs.declared.bounds.Bound.{Bound as BoundOf};
ghost use Rattle.art_tree.specs.Below.{RowsStandBelow};
ghost use Rattle.art_tree.specs.Changes.{IsUnlinked, SameTree};
ghost use Rattle.art_cell.specs.Children.{child_word, link_of, number_of};
ghost use Rattle.art_tree.specs.Descents.{BeginsNone, Descends, Parts};
ghost use Rattle.art_tree.specs.Heaps.{Cells, heap_of, MeansTheSame, WordsMeanCells};
ghost use Rattle.art_tree.specs.Laws.{AddLaw, CopyLaw, DropLaw, ForkLaw, FrameLaw, GrowLaw, IsAscending, ListsRows, MergeLaw, ReplaceLaw, RowFrom, ShrinkLaw};
ghost use Rattle.art_tree.specs.Looks.{AfterCaps, AfterIsExact, AfterIsLeast, AreBytes, LooksAtAnchor, LooksAtNode};
ghost use Rattle.art_tree.specs.Rows.{ByteMap, HasRows, IsOneToOne};
ghost use Rattle.art_tree.specs.Tree.{StandsAt, Begins, Heap, IsTree};
ghost use Rattle.art_tree.specs.WordChanges.{AddByWords, CopyByWords, DropByWords, ForkedByWords, GrowByWords, MergedByWords, ReplaceByWords, SameBody, SameByWords, ShrinkByWords};
ghost use Rattle.art_cell.specs.Words.{Words};

// ---- cells, paths and rows

/// A path has one cell, and a cell one path.
pub fn cells_have_one_path()
    ensures { (h : Heap) → IsTree h → IsOneToOne h }
{}

/// The rows of linked leaves are those that stand below the root.
pub fn rows_stand_below_the_root()
    ensures { (h : Heap) → IsTree h → RowsStandBelow h }
{}

/// Each linked cell has a row whose key begins with the cell's path.
pub fn cells_lead_to_rows()
    ensures { (h : Heap) (c : LinkOf) (p : List ℕ) → IsTree h → StandsAt h c p → RowFrom h p }
{}

/// A heap has the rows of one map alone, and an ascending list of its rows is that of the map's entries.
pub fn rows_are_of_one_map()
    ensures map { (h : Heap) (f g : ByteMap) → HasRows h f → HasRows h g → f ≡ g }
    ensures entries { (h : Heap) (f : ByteMap) (es : List (List ℕ × ℕ)) → HasRows h f → IsAscending es → ListsRows h es → entries f ≡ es }
{}

/// Where there is no root, it is a tree, no cell is linked, and the map is the empty one.
pub fn no_root_has_no_row()
    ensures tree { (h : Heap) → h.root ≡ None → IsTree h }
    ensures unlinked { (h : Heap) (c : LinkOf) → h.root ≡ None → IsUnlinked h c }
    ensures rows { (h : Heap) → h.root ≡ None → HasRows h empty }
{}

/// What is not linked does not matter.
pub fn unlinked_cells_do_not_matter()
    ensures { (h h' : Heap) → SameTree h h' → FrameLaw h h' }
{}

/// A child word is read back as the link that it was written for, and no other word is read as that link.
pub fn child_words_are_read_back()
    ensures back { (c : LinkOf) → number_of c < 2 ^ 32 → link_of (child_word c) ≡ Some c }
    ensures exact { (word : ℕ) (c : LinkOf) → link_of word ≡ Some c → (child_word c ≡ word) × (number_of c < 2 ^ 32) }
{}

// ---- descents and looks

/// What each cell on the way of a key shows of the key.
pub fn descents_show()
    ensures { (h : Heap) (k : List ℕ) → IsTree h → Descends h k }
{}

/// A key that begins no row's key, and that no row's key begins, parts from what stands on its way.
pub fn new_keys_part()
    ensures { (h : Heap) (k : List ℕ) → IsTree h → BeginsNone h k → Parts h k }
{}

/// What the anchor, and a node on the way of the first key that is asked for, show of a range.
pub fn looks_show()
    ensures anchor { (h : Heap) (lo : List ℕ) (hi : BoundOf) → IsTree h → LooksAtAnchor h lo hi }
    ensures node { (h : Heap) (n : NodeOf) (r lo : List ℕ) → IsTree h → StandsAt h (node n) r → Begins r lo → LooksAtNode h n r lo }
{}

/// The bound just above a text is exact, and the least such.
pub fn bounds_are_least()
    ensures exact { AfterIsExact }
    ensures least { AfterIsLeast }
    ensures caps { AfterCaps }
{}

// ---- changes

/// A leaf comes to a free place.
pub fn leaves_are_added()
    ensures { AddLaw }
{}

/// A leaf goes from its place.
pub fn leaves_are_dropped()
    ensures { DropLaw }
{}

/// A leaf gives way to another with its key.
pub fn leaves_are_replaced()
    ensures { ReplaceLaw }
{}

/// A new node comes between a place and what it held, and has a new leaf beside that.
pub fn nodes_come_between()
    ensures { ForkLaw }
{}

/// A node gives way to a copy with one leaf more.
pub fn nodes_grow()
    ensures { GrowLaw }
{}

/// A node gives way to a copy with one leaf less.
pub fn nodes_shrink()
    ensures { ShrinkLaw }
{}

/// A node gives way to a copy with the same children.
pub fn nodes_are_copied()
    ensures { CopyLaw }
{}

/// A node that would come down to one child gives way to it.
pub fn nodes_are_merged_away()
    ensures { MergeLaw }
{}

// ---- words

/// What a heap says of a cell is read off the cell's words: the root, prefixes and children, keys and values.
pub fn words_mean_cells()
    ensures { WordsMeanCells }
{}

/// Words that a change writes make the change of the tree that they stand for.
pub fn words_change_the_tree()
    ensures add { AddByWords }
    ensures drop { DropByWords }
    ensures replace { ReplaceByWords }
    ensures grow { GrowByWords }
    ensures shrink { ShrinkByWords }
    ensures copy { CopyByWords }
    ensures fork { ForkedByWords }
    ensures merge { MergedByWords }
{}

/// Linked cells whose words mean what they meant are the same tree, and words that are the same after the version mean
/// the same.
pub fn same_words_are_the_same_tree()
    ensures tree { (s s' : Cells) → SameByWords s s' → SameTree (heap_of s) (heap_of s') }
    ensures words { (c : CellOf) (w w' : Words) → SameBody c w w' → MeansTheSame c w w' }
{}

/// Keys, prefixes and paths are texts of bytes, whatever the words.
pub fn words_mean_bytes()
    ensures keys { (s : Cells) (l : ℕ) → AreBytes ((heap_of s).key l) }
    ensures prefixes { (s : Cells) (n : NodeOf) → AreBytes ((heap_of s).prefix n) }
    ensures paths { (s : Cells) (c : LinkOf) (p : List ℕ) → StandsAt (heap_of s) c p → AreBytes p }
{}
