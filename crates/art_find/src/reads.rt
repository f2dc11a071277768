//! What a descent is told of words that were read.
ghost use Rattle.std.specs.Prelude.{◌≡◌, ℕ, List, Option, length, ◌≤◌, ◌<◌, ◌+◌, ◌*◌, None, take};
ghost use Rattle.art_find.specs.Descents.{staged};

use crate::descents::{Beside, beside_word, compare_word};
use crate::{Descent, LeafSeen, NodeSeen, Stage, Verdict};
use art_cell::Link;
use art_node::{Sought, first_word, next_word, read_header};
use art_path::Compared;
use art_step::Stamp;

impl Descent {
    ghost use Rattle.art_cell.specs.declared.cells.Cell.TheVariants as cells;
    ghost use Rattle.art_find.specs.Asking.{WantsWord};
    ghost use Rattle.art_step.specs.Acting.{Answers, telling};
    ghost use Rattle.art_find.specs.Compares.{IsWithin};
    ghost use Rattle.art_find.specs.Descents.{Fits, IsAbove, IsOn, IsReading, WasNoted};
    ghost use Rattle.art_find.specs.Descents.{answer_at, asks, ended_at, later_key, most_steps, stands_on};
    ghost use Rattle.art_find.specs.Ways.{HasHeader, IsAtKeys, IsAtLeaf, IsAtSlot, IsInKey, IsInPrefix, IsOnNode, IsPassed, count_in};
    ghost use Rattle.art_step.specs.declared.actions.Answer.TheVariants as told;
    ghost use Rattle.art_step.specs.declared.actions.Action.{Action as ActionOf};
    ghost use Rattle.art_step.specs.Shows.{HasStamp, Shows};
    ghost use Rattle.art_step.specs.declared.deeds.Deed.{Deed};
    ghost use Rattle.art_step.specs.declared.views.Sizes.{Sizes};
    ghost use Rattle.art_step.specs.declared.views.View.{View};
    ghost use Rattle.std.specs.Prelude.{Some};

    /// The word that it asked for, where it stood at this stage, is this.
    #[inline(always)]
    pub fn read_at(&mut self, stage: Stage, key: &[u8], word: u64)
        requires few { length key.now ≤ 64 }
        requires at { self.old.stage ≡ stage }
        requires wants { WantsWord (asks stage) }
        requires fits { (z : Sizes) × (what : Option ℕ → Deed) × (u : View) × (v : View) × Fits z key.now what self.old u v }
        ensures steps { most_steps self.old.depth self.old.stage < most_steps self.new.depth self.new.stage }
        ensures going { ended_at self.new.stage ≡ None }
        ensures stays { stands_on self.new.stage ≡ stands_on self.old.stage }
        ensures fits { (z : Sizes) (what : Option ℕ → Deed) (u v w : View) (asked : ActionOf) →
            Fits z key.now what self.old u v → asks self.old.stage ≡ Some asked →
            Answers z (telling (what (answer_at self.old.stage))) asked (told.Word word) v w → Fits z key.now what self.new u w }
    {
        match stage {
            Stage::Anchor(stamp) => self.see_root(key, stamp, word),
            Stage::Header { stamp, node } => self.see_header(
                key,
                NodeSeen {
                    stamp,
                    node,
                    header: word,
                },
            ),
            Stage::Prefix {
                seen,
                number,
                before,
            } => self.see_prefix(key, seen, number, before, word),
            Stage::Keys { seen, number } => self.see_keys(key, seen, number, word),
            Stage::Slot { seen, place } => self.see_slot(key, seen, place, word),
            Stage::Value { stamp, leaf } => self.stage = Stage::Length {
                stamp,
                leaf,
                value: word,
            },
            Stage::Length { stamp, leaf, value } => self.see_length(key, stamp, leaf, value, word),
            Stage::Bytes {
                seen,
                number,
                before,
            } => self.see_bytes(key, seen, number, before, word),
            _ => unreachable!(),
        }
    }

    /// The anchor's child word was read.
    #[inline(always)]
    fn see_root(&mut self, key: &[u8], stamp: Stamp, word: u64)
        ensures steps { 1 < most_steps self.new.depth self.new.stage }
        ensures going { ended_at self.new.stage ≡ None }
        ensures stays { stands_on self.new.stage ≡ Some stamp }
        ensures fits { (z : Sizes) (what : Option ℕ → Deed) (u w : View) → IsReading u w → HasStamp z w stamp →
            stamp.cell ≡ cells.Anchor → Shows z w stamp (λ s. s cells.Anchor 1 ≡ word) → WasNoted w stamp word →
            Fits z key.now what self.new u w }
    {
        let _ = key;
        self.depth = 0;
        self.stage = match Link::named_by(word) {
            Some(link) => Stage::Child { stamp, link },
            None => Stage::Decided {
                stamp,
                verdict: Verdict::Empty,
            },
        };
    }

    /// The header of a node was read.
    #[inline(always)]
    fn see_header(&mut self, key: &[u8], seen: NodeSeen)
        requires few { length key.now ≤ 64 }
        requires deep { self.old.depth ≤ length key.now }
        ensures steps { 18 * self.old.depth + 5 < most_steps self.new.depth self.new.stage }
        ensures going { ended_at self.new.stage ≡ None }
        ensures stays { stands_on self.new.stage ≡ Some seen.stamp }
        ensures fits { (z : Sizes) (what : Option ℕ → Deed) (u w : View) → IsOn z u w seen.stamp seen.node →
            Shows z w seen.stamp (λ s. HasHeader s seen.node key.now self.old.depth seen.header) → Fits z key.now what self.new u w }
    {
        let count = read_header(seen.header).prefix_length;
        if self.depth + count > 63 {
            self.stage = Stage::Decided {
                stamp: seen.stamp,
                verdict: Verdict::Torn,
            };
        } else if count > 0 {
            self.stage = Stage::Prefix {
                seen,
                number: 0,
                before: Compared::Same,
            };
        } else {
            self.pass(key, seen)
        }
    }

    /// A word of the prefix was read.
    #[inline(always)]
    fn see_prefix(&mut self, key: &[u8], seen: NodeSeen, number: u8, before: Compared, word: u64)
        requires few { length key.now ≤ 64 }
        requires deep { self.old.depth ≤ length key.now }
        requires more { 8 * number < count_in seen.header }
        requires short { self.old.depth + count_in seen.header < 64 }
        requires within { IsWithin key.now self.old.depth (8 * number) before }
        ensures steps { 18 * self.old.depth + 6 + number < most_steps self.new.depth self.new.stage }
        ensures going { ended_at self.new.stage ≡ None }
        ensures stays { stands_on self.new.stage ≡ Some seen.stamp }
        ensures fits { (z : Sizes) (what : Option ℕ → Deed) (u w : View) → IsOn z u w seen.stamp seen.node →
            Shows z w seen.stamp (λ s. IsInPrefix s seen.node key.now self.old.depth seen.header number before) →
            Shows z w seen.stamp (λ s. s (cells.Node seen.node) (2 + number) ≡ word) → Fits z key.now what self.new u w }
    {
        let count = read_header(seen.header).prefix_length;
        let compared = compare_word(key, self.depth, count, number, word, before);
        if 8 * usize::from(number) + 8 < count {
            self.stage = Stage::Prefix {
                seen,
                number: number + 1,
                before: compared,
            };
            return;
        }
        match compared {
            Compared::Same => self.pass(key, seen),
            Compared::Below(at) => {
                let verdict = Verdict::PrefixMismatch {
                    node: seen.node,
                    header: seen.header,
                    at,
                };
                self.stage = Stage::Decided {
                    stamp: seen.stamp,
                    verdict,
                };
            }
            Compared::Above(at) => {
                let verdict = Verdict::PrefixMismatch {
                    node: seen.node,
                    header: seen.header,
                    at,
                };
                self.stage = Stage::Decided {
                    stamp: seen.stamp,
                    verdict: verdict.within(key, self.depth + at),
                };
            }
        }
    }

    /// All bytes of the prefix are the key's.
    #[inline(always)]
    fn pass(&mut self, key: &[u8], seen: NodeSeen)
        requires deep { self.old.depth ≤ length key.now }
        requires short { self.old.depth + count_in seen.header < 64 }
        ensures steps { 18 * self.old.depth + 13 < most_steps self.new.depth self.new.stage }
        ensures going { ended_at self.new.stage ≡ None }
        ensures stays { stands_on self.new.stage ≡ Some seen.stamp }
        ensures fits { (z : Sizes) (what : Option ℕ → Deed) (u w : View) → IsOn z u w seen.stamp seen.node →
            Shows z w seen.stamp (λ s. IsPassed s seen.node key.now self.old.depth seen.header) → Fits z key.now what self.new u w }
    {
        let depth = self.depth + read_header(seen.header).prefix_length;
        if depth >= key.len() {
            self.stage = Stage::Decided {
                stamp: seen.stamp,
                verdict: Verdict::Overlaps,
            };
            return;
        }
        self.depth = depth;
        self.stage = staged(first_word(seen.node.layout, key[depth], seen.header), seen);
    }

    /// A word of key bytes, or of the index, was read.
    #[inline(always)]
    fn see_keys(&mut self, key: &[u8], seen: NodeSeen, number: u8, word: u64)
        requires deep { self.old.depth < length key.now }
        requires number { number < 32 }
        ensures steps { 18 * self.old.depth + 14 + later_key number < most_steps self.new.depth self.new.stage }
        ensures going { ended_at self.new.stage ≡ None }
        ensures stays { stands_on self.new.stage ≡ Some seen.stamp }
        ensures fits { (z : Sizes) (what : Option ℕ → Deed) (u w : View) → IsOn z u w seen.stamp seen.node →
            Shows z w seen.stamp (λ s. IsAtKeys s seen.node key.now self.old.depth seen.header number) →
            Shows z w seen.stamp (λ s. s (cells.Node seen.node) (10 + number) ≡ word) → Fits z key.now what self.new u w }
    {
        let byte = key[self.depth];
        self.stage = staged(
            next_word(seen.node.layout, byte, seen.header, number, word),
            seen,
        );
    }

    /// The child word was read.
    #[inline(always)]
    fn see_slot(&mut self, key: &[u8], seen: NodeSeen, place: usize, word: u64)
        requires deep { self.old.depth < length key.now }
        ensures steps { 18 * self.old.depth + 16 < most_steps self.new.depth self.new.stage }
        ensures going { ended_at self.new.stage ≡ None }
        ensures stays { stands_on self.new.stage ≡ Some seen.stamp }
        ensures fits { (z : Sizes) (what : Option ℕ → Deed) (u w : View) → IsOn z u w seen.stamp seen.node →
            Shows z w seen.stamp (λ s. IsAtSlot s seen.node key.now self.old.depth seen.header place) →
            Shows z w seen.stamp (λ s. s (cells.Node seen.node) place ≡ word) → WasNoted w seen.stamp word →
            Fits z key.now what self.new u w }
    {
        let _ = key;
        let _ = place;
        match Link::named_by(word) {
            Some(link) => {
                self.depth += 1;
                self.stage = Stage::Child {
                    stamp: seen.stamp,
                    link,
                };
            }
            None => {
                self.stage = Stage::Decided {
                    stamp: seen.stamp,
                    verdict: Verdict::NoChild {
                        node: seen.node,
                        header: seen.header,
                    },
                };
            }
        }
    }

    /// The length of a leaf's key was read.
    #[inline(always)]
    fn see_length(&mut self, key: &[u8], stamp: Stamp, leaf: u32, value: u64, bytes: u64)
        requires deep { self.old.depth ≤ length key.now }
        ensures steps { 18 * self.old.depth + 4 < most_steps self.new.depth self.new.stage }
        ensures going { ended_at self.new.stage ≡ None }
        ensures stays { stands_on self.new.stage ≡ Some stamp }
        ensures fits { (z : Sizes) (what : Option ℕ → Deed) (u w : View) → IsAbove z u w stamp leaf →
            Shows z w stamp (λ s. IsAtLeaf s stamp.cell leaf (take self.old.depth key.now) value) →
            Shows z w stamp (λ s. s (cells.Leaf leaf) 1 ≡ bytes) → Fits z key.now what self.new u w }
    {
        if bytes > 64 {
            self.stage = Stage::Decided {
                stamp,
                verdict: Verdict::Torn,
            };
        } else if bytes > 0 {
            let count = bytes as usize;
            self.stage = Stage::Bytes {
                seen: LeafSeen {
                    stamp,
                    leaf,
                    value,
                    count,
                },
                number: 0,
                before: Beside {
                    compared: Compared::Same,
                    byte: 0,
                },
            };
        } else if key.is_empty() {
            self.stage = Stage::Decided {
                stamp,
                verdict: Verdict::Found { leaf, value },
            };
        } else {
            self.stage = Stage::Decided {
                stamp,
                verdict: Verdict::Overlaps,
            };
        }
    }

    /// A word of a leaf's key was read.
    #[inline(always)]
    fn see_bytes(&mut self, key: &[u8], seen: LeafSeen, number: u8, before: Beside, word: u64)
        requires deep { self.old.depth ≤ length key.now }
        requires more { 8 * number < seen.count }
        requires few { seen.count ≤ 64 }
        requires within { IsWithin key.now 0 (8 * number) before.compared }
        ensures steps { 18 * self.old.depth + 5 + number < most_steps self.new.depth self.new.stage }
        ensures going { ended_at self.new.stage ≡ None }
        ensures stays { stands_on self.new.stage ≡ Some seen.stamp }
        ensures fits { (z : Sizes) (what : Option ℕ → Deed) (u w : View) → IsAbove z u w seen.stamp seen.leaf →
            Shows z w seen.stamp (λ s. IsInKey s seen key.now (take self.old.depth key.now) number before) →
            Shows z w seen.stamp (λ s. s (cells.Leaf seen.leaf) (2 + number) ≡ word) → Fits z key.now what self.new u w }
    {
        let beside = beside_word(key, seen.count, number, word, before);
        if 8 * usize::from(number) + 8 < seen.count {
            self.stage = Stage::Bytes {
                seen,
                number: number + 1,
                before: beside,
            };
            return;
        }
        let byte = beside.byte;
        match beside.compared {
            Compared::Same => {
                if seen.count == key.len() {
                    self.stage = Stage::Decided {
                        stamp: seen.stamp,
                        verdict: Verdict::Found {
                            leaf: seen.leaf,
                            value: seen.value,
                        },
                    };
                } else {
                    self.stage = Stage::Decided {
                        stamp: seen.stamp,
                        verdict: Verdict::Overlaps,
                    };
                }
            }
            Compared::Below(at) => {
                self.stage = Stage::Decided {
                    stamp: seen.stamp,
                    verdict: Verdict::LeafMismatch {
                        leaf: seen.leaf,
                        at,
                        byte,
                    },
                };
            }
            Compared::Above(at) => {
                let verdict = Verdict::LeafMismatch {
                    leaf: seen.leaf,
                    at,
                    byte,
                };
                self.stage = Stage::Decided {
                    stamp: seen.stamp,
                    verdict: verdict.within(key, at),
                };
            }
        }
    }
}

/// The stage after a search in a node.
#[inline(always)]
pub(crate) fn staged(sought: Sought, seen: NodeSeen) -> Stage
    ensures { result ≡ staged sought seen }
{
    match sought {
        Sought::Keys(number) => Stage::Keys { seen, number },
        Sought::Child(place) => Stage::Slot { seen, place },
        Sought::Nothing => Stage::Decided {
            stamp: seen.stamp,
            verdict: Verdict::NoChild {
                node: seen.node,
                header: seen.header,
            },
        },
    }
}
