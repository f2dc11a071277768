//! What a look is told of words that were read.
ghost use Rattle.std.specs.Prelude.{◌≡◌, ℕ, length, ◌≤◌, ◌<◌, ◌+◌, ◌*◌, take};
ghost use Rattle.art_key.specs.declared.bounds.Bound.{Bound as KeyBound};
ghost use Rattle.art_look.specs.Fronts.{IsFront, is_within};
ghost use Rattle.art_look.specs.Looks.{next_child, staged};

use crate::fronts::{Front, front_of, low_at};
use crate::path_buffers::spell;
use crate::{ChildSought, Look, LookStage, PathBuffer, Reach};
use art_cell::{Layout, Link, Node};
use art_find::{LeafSeen, NodeSeen};
use art_key::Key;
use art_node::{SoughtFrom, first_word_from, next_word_from, read_header};
use art_step::Stamp;

impl Look {
    ghost use Rattle.art_cell.specs.declared.cells.Cell.TheVariants as cells;
    ghost use Rattle.art_cell.specs.declared.cells.Link.TheVariants as links;
    ghost use Rattle.art_find.specs.Asking.{WantsWord};
    ghost use Rattle.art_step.specs.Acting.{Answers, telling};
    ghost use Rattle.art_find.specs.Descents.{IsAbove, IsOn, IsReading, WasNoted};
    ghost use Rattle.art_find.specs.Ways.{count_in};
    ghost use Rattle.art_step.specs.declared.actions.Answer.TheVariants as told;
    ghost use Rattle.art_step.specs.declared.actions.Action.{Action as ActionOf};
    ghost use Rattle.art_look.specs.Fronts.{low_at};
    ghost use Rattle.art_look.specs.Looks.{Fits, IsSought, asks, deed_at, has_ended, least_steps, most_steps};
    ghost use Rattle.art_look.specs.PathBuffers.{HasFirstValue, SeeksChild, SeeksKeys, SpellsKey, SpellsPath, SpellsPrefix, SpellsWords};
    ghost use Rattle.art_step.specs.Shows.{HasStamp, Shows};
    ghost use Rattle.art_step.specs.declared.views.Sizes.{Sizes};
    ghost use Rattle.art_step.specs.declared.views.View.{View};
    ghost use Rattle.art_cell.specs.Children.{link_of};
    ghost use Rattle.art_tree.specs.Tree.{Begins};
    ghost use Rattle.std.specs.Prelude.{List, Some, false};

    /// The word that it asked for is this.
    #[inline(always)]
    pub fn read(&mut self, lo: &[u8], path_buffer: &mut PathBuffer, word: u64)
        requires wants { WantsWord (asks self.old.stage) }
        requires fits { (z : Sizes) × (hi : KeyBound) × (u : View) × (v : View) × Fits z lo.now hi self.old path_buffer.old u v }
        ensures going { has_ended self.new.stage ≡ false }
        ensures steps { most_steps self.old.depth self.old.stage < most_steps self.new.depth self.new.stage }
        ensures least { least_steps self.new.stage ≤ least_steps self.old.stage + 1 }
        ensures fits { (z : Sizes) (hi : KeyBound) (u v w : View) (asked : ActionOf) →
            Fits z lo.now hi self.old path_buffer.old u v → asks self.old.stage ≡ Some asked →
            Answers z (telling (deed_at lo.now hi path_buffer.old self.old.stage)) asked (told.Word word) v w →
            Fits z lo.now hi self.new path_buffer.new u w }
    {
        self.read_at(self.stage, lo, path_buffer, word);
    }

    /// The word that it asked for, where it stood at this stage, is this.
    #[inline(always)]
    pub(crate) fn read_at(
        &mut self,
        stage: LookStage,
        lo: &[u8],
        path_buffer: &mut PathBuffer,
        word: u64,
    )
        requires at { self.old.stage ≡ stage }
        requires wants { WantsWord (asks stage) }
        requires fits { (z : Sizes) × (hi : KeyBound) × (u : View) × (v : View) × Fits z lo.now hi self.old path_buffer.old u v }
        ensures going { has_ended self.new.stage ≡ false }
        ensures steps { most_steps self.old.depth self.old.stage < most_steps self.new.depth self.new.stage }
        ensures least { least_steps self.new.stage ≤ least_steps self.old.stage + 1 }
        ensures fits { (z : Sizes) (hi : KeyBound) (u v w : View) (asked : ActionOf) →
            Fits z lo.now hi self.old path_buffer.old u v → asks self.old.stage ≡ Some asked →
            Answers z (telling (deed_at lo.now hi path_buffer.old self.old.stage)) asked (told.Word word) v w →
            Fits z lo.now hi self.new path_buffer.new u w }
    {
        match stage {
            LookStage::Anchor(stamp) => self.see_root(path_buffer, stamp, word),
            LookStage::Header { stamp, node } => {
                let header = word;
                self.see_header(
                    lo,
                    path_buffer,
                    NodeSeen {
                        stamp,
                        node,
                        header,
                    },
                )
            }
            LookStage::Prefix { seen, number } => self.see_prefix(
                lo,
                path_buffer,
                seen,
                number,
                word,
            ),
            LookStage::Keys {
                seen,
                front,
                number,
            } => { self.see_keys(lo, path_buffer, seen, front, number, word) }
            LookStage::Slot(sought) => self.see_child(lo, path_buffer, sought, word),
            LookStage::Value { stamp, leaf } => self.stage = LookStage::Length {
                stamp,
                leaf,
                value: word,
            },
            LookStage::Length { stamp, leaf, value } => {
                self.see_length(path_buffer, stamp, leaf, value, word)
            }
            LookStage::Bytes { seen, number } => self.see_bytes(path_buffer, seen, number, word),
            _ => unreachable!(),
        }
    }

    /// The anchor's child word was read.
    #[inline(always)]
    fn see_root(&mut self, path_buffer: &mut PathBuffer, stamp: Stamp, word: u64)
        ensures steps { 1 < most_steps self.new.depth self.new.stage }
        ensures least { least_steps self.new.stage ≤ 2 }
        ensures fits { (z : Sizes) (lo : List ℕ) (hi : KeyBound) (u w : View) → IsReading u w → HasStamp z w stamp →
            stamp.cell ≡ cells.Anchor → Shows z w stamp (λ s. s cells.Anchor 1 ≡ word) → WasNoted w stamp word →
            Fits z lo hi self.new path_buffer.new u w }
    {
        // a new key is a few moves, where `clear` overwrites the bytes by a call
        path_buffer.path = Key::new();
        self.depth = 0;
        self.stage = match Link::named_by(word) {
            Some(link) => LookStage::Child { stamp, link },
            None => LookStage::Decided {
                stamp,
                reach: Reach::Past,
                value: None,
            },
        };
    }

    /// The header of a node was read.
    #[inline(always)]
    fn see_header(&mut self, lo: &[u8], path_buffer: &mut PathBuffer, seen: NodeSeen)
        requires few { self.old.depth ≤ 64 }
        requires long { length path_buffer.old.path.items ≡ self.old.depth }
        requires front { Begins path_buffer.old.path.items lo.now }
        ensures steps { 320 * self.old.depth + 5 < most_steps self.new.depth self.new.stage }
        ensures least { least_steps self.new.stage ≤ 2 }
        ensures fits { (z : Sizes) (hi : KeyBound) (u w : View) → IsOn z u w seen.stamp seen.node →
            Shows z w seen.stamp (λ s. SpellsPrefix s seen.node path_buffer.old.path.items seen.header 0 path_buffer.old.path.items) →
            Fits z lo.now hi self.new path_buffer.new u w }
    {
        let count = read_header(seen.header).prefix_length;
        if self.depth + count > 63 {
            self.stage = LookStage::Decided {
                stamp: seen.stamp,
                reach: Reach::Past,
                value: None,
            };
        } else if count > 0 {
            self.stage = LookStage::Prefix { seen, number: 0 };
        } else {
            self.pass(lo, path_buffer, seen)
        }
    }

    /// A word of the prefix was read.
    #[inline(always)]
    fn see_prefix(
        &mut self,
        lo: &[u8],
        path_buffer: &mut PathBuffer,
        seen: NodeSeen,
        number: u8,
        word: u64,
    )
        requires long { length path_buffer.old.path.items ≡ self.old.depth + 8 * number }
        requires more { 8 * number < count_in seen.header }
        requires short { self.old.depth + count_in seen.header < 64 }
        requires front { Begins (take self.old.depth path_buffer.old.path.items) lo.now }
        ensures steps { 320 * self.old.depth + 6 + number < most_steps self.new.depth self.new.stage }
        ensures least { least_steps self.new.stage ≤ 2 }
        ensures fits { (z : Sizes) (hi : KeyBound) (u w : View) → IsOn z u w seen.stamp seen.node →
            Shows z w seen.stamp (λ s. SpellsWords s seen self.old.depth number path_buffer.old.path.items) →
            Shows z w seen.stamp (λ s. s (cells.Node seen.node) (2 + number) ≡ word) → Fits z lo.now hi self.new path_buffer.new u w }
    {
        let rest = read_header(seen.header).prefix_length - 8 * usize::from(number);
        spell(&mut path_buffer.path, word, rest.min(8));
        if rest > 8 {
            self.stage = LookStage::Prefix {
                seen,
                number: number + 1,
            };
        } else {
            self.pass(lo, path_buffer, seen)
        }
    }

    /// All bytes of the prefix were read.
    #[inline(always)]
    fn pass(&mut self, lo: &[u8], path_buffer: &mut PathBuffer, seen: NodeSeen)
        requires long { length path_buffer.old.path.items ≡ self.old.depth + count_in seen.header }
        requires short { self.old.depth + count_in seen.header < 64 }
        requires front { Begins (take self.old.depth path_buffer.old.path.items) lo.now }
        ensures steps { 320 * self.old.depth + 13 < most_steps self.new.depth self.new.stage }
        ensures least { least_steps self.new.stage ≤ 2 }
        ensures fits { (z : Sizes) (hi : KeyBound) (u w : View) → IsOn z u w seen.stamp seen.node →
            Shows z w seen.stamp (λ s. SpellsPath s seen.node (take self.old.depth path_buffer.old.path.items) seen.header path_buffer.old.path.items) →
            Fits z lo.now hi self.new path_buffer.new u w }
    {
        let Some(front) = front_of(lo, path_buffer.path.as_slice()) else {
            path_buffer.path.truncate(self.depth);
            self.stage = LookStage::Decided {
                stamp: seen.stamp,
                reach: Reach::Past,
                value: None,
            };
            return;
        };
        let low = low_at(front, lo, path_buffer.path.as_slice());
        self.stage = staged(
            first_word_from(seen.node.layout, low, seen.header),
            seen,
            front,
        );
    }

    /// A word of key bytes, or of the index, was read.
    #[inline(always)]
    fn see_keys(
        &mut self,
        lo: &[u8],
        path_buffer: &PathBuffer,
        seen: NodeSeen,
        front: Front,
        number: u8,
        word: u64,
    )
        requires sought { IsSought lo.now self.old.depth path_buffer.now.path.items front }
        requires number { number < 32 }
        ensures steps { 320 * self.old.depth + 14 + number < most_steps self.new.depth self.new.stage }
        ensures least { least_steps self.new.stage ≤ 2 }
        ensures fits { (z : Sizes) (hi : KeyBound) (u w : View) → IsOn z u w seen.stamp seen.node →
            Shows z w seen.stamp (λ s. SeeksKeys s seen.node (take self.old.depth path_buffer.now.path.items) seen.header path_buffer.now.path.items
            (low_at front lo.now path_buffer.now.path.items) number) →
            Shows z w seen.stamp (λ s. s (cells.Node seen.node) (10 + number) ≡ word) → Fits z lo.now hi self.new path_buffer.now u w }
    {
        let low = low_at(front, lo, path_buffer.path.as_slice());
        self.stage = staged(
            next_word_from(seen.node.layout, low, seen.header, number, word),
            seen,
            front,
        );
    }

    /// The child word was read.
    #[inline(always)]
    fn see_child(&mut self, lo: &[u8], path_buffer: &mut PathBuffer, sought: ChildSought, word: u64)
        requires sought { IsSought lo.now self.old.depth path_buffer.old.path.items sought.front }
        requires low { low_at sought.front lo.now path_buffer.old.path.items ≤ sought.byte }
        requires byte { sought.byte < 256 }
        ensures steps { 320 * self.old.depth + 46 + sought.byte < most_steps self.new.depth self.new.stage }
        ensures least { least_steps self.new.stage ≤ 2 }
        ensures fits { (z : Sizes) (hi : KeyBound) (u w : View) → IsOn z u w sought.seen.stamp sought.seen.node →
            Shows z w sought.seen.stamp (λ s. SeeksChild s sought.seen.node (take self.old.depth path_buffer.old.path.items) path_buffer.old.path.items
            (low_at sought.front lo.now path_buffer.old.path.items) sought.byte sought.place) →
            Shows z w sought.seen.stamp (λ s. s (cells.Node sought.seen.node) sought.place ≡ word) →
            WasNoted w sought.seen.stamp word →
            Fits z lo.now hi self.new path_buffer.new u w }
    {
        match Link::named_by(word) {
            Some(link) => self.follow(lo, path_buffer, sought, link),
            None => self.stage = next_child(sought),
        }
    }

    /// It names this.
    #[inline(always)]
    fn follow(&mut self, lo: &[u8], path_buffer: &mut PathBuffer, sought: ChildSought, link: Link)
        requires sought { IsSought lo.now self.old.depth path_buffer.old.path.items sought.front }
        requires low { low_at sought.front lo.now path_buffer.old.path.items ≤ sought.byte }
        requires byte { sought.byte < 256 }
        ensures steps { 320 * self.old.depth + 301 < most_steps self.new.depth self.new.stage }
        ensures least { least_steps self.new.stage ≤ 2 }
        ensures fits { (z : Sizes) (hi : KeyBound) (u w : View) (word : ℕ) → IsOn z u w sought.seen.stamp sought.seen.node →
            Shows z w sought.seen.stamp (λ s. SeeksChild s sought.seen.node (take self.old.depth path_buffer.old.path.items) path_buffer.old.path.items
            (low_at sought.front lo.now path_buffer.old.path.items) sought.byte sought.place) →
            Shows z w sought.seen.stamp (λ s. s (cells.Node sought.seen.node) sought.place ≡ word) →
            WasNoted w sought.seen.stamp word →
            link_of word ≡ Some link → Fits z lo.now hi self.new path_buffer.new u w }
    {
        let goes_down = match link {
            Link::Leaf(_) => true,
            Link::Node(_) => begins(sought, lo, path_buffer.path.as_slice()),
        };
        path_buffer.path.push(sought.byte);
        if goes_down {
            self.depth = path_buffer.path.len();
            self.stage = LookStage::Child {
                stamp: sought.seen.stamp,
                link,
            };
        } else {
            self.stage = LookStage::Decided {
                stamp: sought.seen.stamp,
                reach: Reach::UpTo,
                value: None,
            };
        }
    }

    /// The length of a leaf's key was read.
    #[inline(always)]
    fn see_length(
        &mut self,
        path_buffer: &mut PathBuffer,
        stamp: Stamp,
        leaf: u32,
        value: u64,
        bytes: u64,
    )
        requires few { self.old.depth ≤ 64 }
        ensures steps { 320 * self.old.depth + 4 < most_steps self.new.depth self.new.stage }
        ensures least { least_steps self.new.stage ≤ 2 }
        ensures fits { (z : Sizes) (lo : List ℕ) (hi : KeyBound) (u w : View) → IsAbove z u w stamp leaf →
            Shows z w stamp (λ s. HasFirstValue s stamp.cell lo path_buffer.old.path.items leaf value) →
            Shows z w stamp (λ s. s (cells.Leaf leaf) 1 ≡ bytes) → Fits z lo hi self.new path_buffer.new u w }
    {
        path_buffer.key = Key::new();
        if bytes > 64 {
            self.stage = LookStage::Decided {
                stamp,
                reach: Reach::Past,
                value: None,
            };
        } else if bytes > 0 {
            let count = bytes as usize;
            self.stage = LookStage::Bytes {
                seen: LeafSeen {
                    stamp,
                    leaf,
                    value,
                    count,
                },
                number: 0,
            };
        } else {
            self.stage = LookStage::Decided {
                stamp,
                reach: Reach::Past,
                value: Some(value),
            };
        }
    }

    /// A word of a leaf's key was read.
    #[inline(always)]
    fn see_bytes(&mut self, path_buffer: &mut PathBuffer, seen: LeafSeen, number: u8, word: u64)
        requires few { self.old.depth ≤ 64 }
        requires long { length path_buffer.old.key.items ≡ 8 * number }
        requires more { 8 * number < seen.count }
        requires short { seen.count ≤ 64 }
        ensures steps { 320 * self.old.depth + 5 + number < most_steps self.new.depth self.new.stage }
        ensures least { least_steps self.new.stage ≤ 2 }
        ensures fits { (z : Sizes) (lo : List ℕ) (hi : KeyBound) (u w : View) → IsAbove z u w seen.stamp seen.leaf →
            Shows z w seen.stamp (λ s. SpellsKey s seen.stamp.cell lo path_buffer.old.path.items seen (8 * number) path_buffer.old.key.items) →
            Shows z w seen.stamp (λ s. s (cells.Leaf seen.leaf) (2 + number) ≡ word) → Fits z lo hi self.new path_buffer.new u w }
    {
        let rest = seen.count - 8 * usize::from(number);
        spell(&mut path_buffer.key, word, rest.min(8));
        if rest > 8 {
            self.stage = LookStage::Bytes {
                seen,
                number: number + 1,
            };
        } else {
            self.stage = LookStage::Decided {
                stamp: seen.stamp,
                reach: Reach::Past,
                value: Some(seen.value),
            };
        }
    }
}

/// The stage after a search in a node.
#[inline(always)]
fn staged(sought: SoughtFrom, seen: NodeSeen, front: Front) -> LookStage
    ensures { result ≡ staged sought seen front }
{
    match sought {
        SoughtFrom::Keys(number) => LookStage::Keys {
            seen,
            front,
            number,
        },
        SoughtFrom::Child { place, byte } => LookStage::Slot(ChildSought {
            seen,
            front,
            byte,
            place,
        }),
        SoughtFrom::Nothing => LookStage::Decided {
            stamp: seen.stamp,
            reach: Reach::Past,
            value: None,
        },
    }
}

/// The byte has no child: in a node with a place for each byte the next one comes, if there is one.
#[inline(always)]
fn next_child(sought: ChildSought) -> LookStage
    ensures { result ≡ next_child sought }
{
    if sought.byte == 255 {
        return LookStage::Decided {
            stamp: sought.seen.stamp,
            reach: Reach::Past,
            value: None,
        };
    }
    match sought.seen.node.layout {
        Layout::Node256 => LookStage::Slot(ChildSought {
            seen: sought.seen,
            front: sought.front,
            byte: sought.byte + 1,
            place: 11 + usize::from(sought.byte),
        }),
        _ => LookStage::Decided {
            stamp: sought.seen.stamp,
            reach: Reach::Past,
            value: None,
        },
    }
}

/// Whether the path with the byte of the child begins the lower end.
#[inline(always)]
fn begins(sought: ChildSought, lo: &[u8], path: &[u8]) -> bool
    requires { IsFront sought.front lo.now path.now }
    ensures { result ≡ is_within sought.front lo.now path.now sought.byte }
{
    match sought.front {
        Front::Within => lo[path.len()] == sought.byte,
        Front::Beyond => false,
    }
}
