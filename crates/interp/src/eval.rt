//! The values of expressions. A function that stops answers None and says why on the side, so that its answer
//! comes back in registers.

ghost use Rattle.std.specs.Prelude.{◌≡◌, map, nat_lt, if◌then◌else◌};
ghost use Rattle.c_tree.specs.Values.{word_un, word_bin, word_holds, as_bit};
ghost use Rattle.interp.specs.Values.{values_in};
ghost use Rattle.interp.specs.Places.{all_placed};
ghost use Rattle.interp.specs.Machine.{Tells, after, give, finds, loads, entry_of};
ghost use Rattle.interp.specs.Meaning as means;
ghost use Rattle.interp.specs.Meaning.{meaning, coordinates_of, word_of, coordinate_of, wide_of};

use crate::machine::Machine;
use crate::places::Coordinates;
use crate::scene::Scene;
use crate::signed::{compare, signed};
use crate::slots::{Comparison, WideExpr, WordExpr};
use crate::stop::Stop;
use crate::subscripts::find_signed;
use crate::words;
use c_tree::{BinOp, Rel, UnOp};
use smallvec::SmallVec;
use sqlite_items::Items;
use std::alloc::Global;

impl Machine {
    /// The value of a word expression.
    #[cycle(word)]
    pub fn word(
        &mut self,
        alloc: Global,
        scene: &Scene<'_>,
        why: &mut Stop,
        e: &WordExpr,
    ) -> Option<u64>
        ensures { Tells (λ n. n) result why.new self.new (word_of (all_placed scene.now.places.now) e.now (values_in scene.now.values) self.old) }
    {
        match e {
            WordExpr::Number(n) => Some(*n),
            WordExpr::Word(slot) => Some(self.word_at(*slot)),
            WordExpr::Cell(array, at) => self.cell(alloc, scene, why, *array, at),
            WordExpr::Entry(table, at) => self.entry(alloc, scene, why, *table, at),
            WordExpr::Un(op, a) => self.unary(alloc, scene, why, *op, a),
            WordExpr::Bin(op, a, b) => {
                let a = self.operand(alloc, scene, why, a)?;
                self.binary(alloc, scene, why, *op, a, b)
            }
            WordExpr::Cast(e) | WordExpr::Index(e) => {
                Some(words::as_word(signed(e, &scene.values)))
            }
            WordExpr::Test(rel, a, b) => {
                let a = self.word(alloc, scene, why, a)?;
                self.test(alloc, scene, why, *rel, a, b)
            }
            WordExpr::Min(a, b) => {
                let a = self.word(alloc, scene, why, a)?;
                self.lesser(alloc, scene, why, a, b)
            }
            WordExpr::Max(a, b) => {
                let a = self.word(alloc, scene, why, a)?;
                self.greater(alloc, scene, why, a, b)
            }
        }
    }

    /// The value of an operand. Numbers, words and cells are in line, and take no frame of `word`.
    #[cycle(word)]
    #[inline(always)]
    fn operand(
        &mut self,
        alloc: Global,
        scene: &Scene<'_>,
        why: &mut Stop,
        e: &WordExpr,
    ) -> Option<u64>
        ensures { Tells (λ n. n) result why.new self.new (word_of (all_placed scene.now.places.now) e.now (values_in scene.now.values) self.old) }
    {
        match e {
            WordExpr::Number(n) => Some(*n),
            WordExpr::Word(slot) => Some(self.word_at(*slot)),
            WordExpr::Cell(array, at) => self.cell(alloc, scene, why, *array, at),
            _ => self.word(alloc, scene, why, e),
        }
    }

    /// The value of a cell.
    #[cycle(word)]
    #[inline(never)]
    fn cell(
        &mut self,
        alloc: Global,
        scene: &Scene<'_>,
        why: &mut Stop,
        array: u32,
        at: &Items<WordExpr>,
    ) -> Option<u64>
        ensures { Tells (λ n. n) result why.new self.new (after (coordinates_of (map (meaning (all_placed scene.now.places.now)) at.now) (values_in scene.now.values) self.old) (λ cs m. after (finds (all_placed scene.now.places.now) array cs m) loads)) }
    {
        match find_signed(scene, array, at.as_slice()) {
            Some(place) => Some(self.load(place)),
            None => self.cell_by_list(alloc, scene, why, array, at),
        }
    }

    /// The value of a cell, by the list of its coordinates.
    #[cycle(word)]
    #[inline(never)]
    fn cell_by_list(
        &mut self,
        alloc: Global,
        scene: &Scene<'_>,
        why: &mut Stop,
        array: u32,
        at: &Items<WordExpr>,
    ) -> Option<u64>
        ensures { Tells (λ n. n) result why.new self.new (after (coordinates_of (map (meaning (all_placed scene.now.places.now)) at.now) (values_in scene.now.values) self.old) (λ cs m. after (finds (all_placed scene.now.places.now) array cs m) loads)) }
    {
        let at = self.coordinates(alloc, scene, why, at)?;
        let place = self.find(scene.places, why, array, at.as_slice())?;
        Some(self.load(place))
    }

    /// The value of an entry of a table.
    #[cycle(word)]
    #[inline(never)]
    fn entry(
        &mut self,
        alloc: Global,
        scene: &Scene<'_>,
        why: &mut Stop,
        table: usize,
        at: &WordExpr,
    ) -> Option<u64>
        ensures { Tells (λ n. n) result why.new self.new (after (word_of (all_placed scene.now.places.now) at.now (values_in scene.now.values) self.old) (λ i. entry_of table i)) }
    {
        let at = self.word(alloc, scene, why, at)?;
        Some(self.entry_at(table, at))
    }

    // Each further form has a function of its own, so that the frame of `word` stays small. Of two operands the
    // first is evaluated by `word`.
    #[cycle(word)]
    fn unary(
        &mut self,
        alloc: Global,
        scene: &Scene<'_>,
        why: &mut Stop,
        op: UnOp,
        a: &WordExpr,
    ) -> Option<u64>
        ensures { Tells (λ n. n) result why.new self.new (after (word_of (all_placed scene.now.places.now) a.now (values_in scene.now.values) self.old) (λ x. give (word_un op x))) }
    {
        Some(words::un(op, self.word(alloc, scene, why, a)?))
    }

    #[cycle(word)]
    fn binary(
        &mut self,
        alloc: Global,
        scene: &Scene<'_>,
        why: &mut Stop,
        op: BinOp,
        a: u64,
        b: &WordExpr,
    ) -> Option<u64>
        ensures { Tells (λ n. n) result why.new self.new (after (word_of (all_placed scene.now.places.now) b.now (values_in scene.now.values) self.old) (λ y. give (word_bin op a y))) }
    {
        let b = self.operand(alloc, scene, why, b)?;
        Some(words::bin(op, a, b))
    }

    #[cycle(word)]
    #[inline(never)]
    fn test(
        &mut self,
        alloc: Global,
        scene: &Scene<'_>,
        why: &mut Stop,
        rel: Rel,
        a: u64,
        b: &WordExpr,
    ) -> Option<u64>
        ensures { Tells (λ n. n) result why.new self.new (after (word_of (all_placed scene.now.places.now) b.now (values_in scene.now.values) self.old) (λ y. give (as_bit (word_holds rel a y)))) }
    {
        let b = self.word(alloc, scene, why, b)?;
        Some(u64::from(words::compare(rel, a, b)))
    }

    #[cycle(word)]
    #[inline(never)]
    fn lesser(
        &mut self,
        alloc: Global,
        scene: &Scene<'_>,
        why: &mut Stop,
        a: u64,
        b: &WordExpr,
    ) -> Option<u64>
        ensures { Tells (λ n. n) result why.new self.new (after (word_of (all_placed scene.now.places.now) b.now (values_in scene.now.values) self.old) (λ y. give (if nat_lt a y then a else y))) }
    {
        let b = self.word(alloc, scene, why, b)?;
        Some(words::lesser(a, b))
    }

    #[cycle(word)]
    #[inline(never)]
    fn greater(
        &mut self,
        alloc: Global,
        scene: &Scene<'_>,
        why: &mut Stop,
        a: u64,
        b: &WordExpr,
    ) -> Option<u64>
        ensures { Tells (λ n. n) result why.new self.new (after (word_of (all_placed scene.now.places.now) b.now (values_in scene.now.values) self.old) (λ y. give (if nat_lt a y then y else a))) }
    {
        let b = self.word(alloc, scene, why, b)?;
        Some(words::greater(a, b))
    }

    /// The value of a subscript.
    #[cycle(word)]
    fn coordinate(
        &mut self,
        alloc: Global,
        scene: &Scene<'_>,
        why: &mut Stop,
        e: &WordExpr,
    ) -> Option<i128>
        ensures { Tells (λ n. n) result why.new self.new (coordinate_of (all_placed scene.now.places.now) e.now (values_in scene.now.values) self.old) }
    {
        match e {
            WordExpr::Index(e) => Some(signed(e, &scene.values) as i128),
            _ => Some(self.word(alloc, scene, why, e)? as i128),
        }
    }

    /// The values of the subscripts, from left to right.
    #[cycle(word)]
    pub fn coordinates(
        &mut self,
        alloc: Global,
        scene: &Scene<'_>,
        why: &mut Stop,
        at: &Items<WordExpr>,
    ) -> Option<Coordinates>
        ensures { Tells (λ v. v.items) result why.new self.new (coordinates_of (map (meaning (all_placed scene.now.places.now)) at.now) (values_in scene.now.values) self.old) }
    {
        let mut coordinates = SmallVec::new(alloc);
        for e in at.as_slice() {
            let c = self.coordinate(alloc, scene, why, e)?;
            if coordinates.push(c).is_err() {
                *why = Stop::NoMemory;
                return None;
            }
        }
        Some(coordinates)
    }

    /// The value of a wide expression.
    pub fn wide(
        &mut self,
        alloc: Global,
        scene: &Scene<'_>,
        why: &mut Stop,
        e: &WideExpr,
    ) -> Option<u128>
        ensures { Tells (λ n. n) result why.new self.new (wide_of (all_placed scene.now.places.now) e.now (values_in scene.now.values) self.old) }
    {
        match e {
            WideExpr::Number(n) => Some(*n),
            WideExpr::Wide(slot) => Some(self.wide_at(*slot)),
            WideExpr::Bin(op, a, b) => {
                let a = self.wide(alloc, scene, why, a)?;
                let b = self.wide(alloc, scene, why, b)?;
                Some(words::wide_op(*op, a, b))
            }
            WideExpr::Cast(e) => Some(words::as_wide(signed(e, &scene.values))),
            WideExpr::Word(e) => Some(self.word(alloc, scene, why, e)? as u128),
        }
    }

    /// Whether a comparison holds.
    fn holds(
        &mut self,
        alloc: Global,
        scene: &Scene<'_>,
        why: &mut Stop,
        test: &Comparison,
    ) -> Option<bool>
        ensures { Tells (λ b. b) result why.new self.new (means.holds (all_placed scene.now.places.now) test.now (values_in scene.now.values) self.old) }
    {
        match test {
            Comparison::Signed(rel, a, b) => {
                Some(compare(*rel, signed(a, &scene.values), signed(b, &scene.values)))
            }
            Comparison::Words(rel, a, b) => {
                let a = self.word(alloc, scene, why, a)?;
                let b = self.word(alloc, scene, why, b)?;
                Some(words::compare(*rel, a, b))
            }
        }
    }

    /// Whether all hold, from left to right, up to the first that doesn't.
    fn all_of(
        &mut self,
        alloc: Global,
        scene: &Scene<'_>,
        why: &mut Stop,
        tests: &[Comparison],
    ) -> Option<bool>
        ensures { Tells (λ b. b) result why.new self.new (means.all_hold (all_placed scene.now.places.now) tests.now (values_in scene.now.values) self.old) }
    {
        for test in tests {
            if !self.holds(alloc, scene, why, test)? {
                return Some(false);
            }
        }
        Some(true)
    }

    /// The same, with a single signed test in line.
    #[inline(always)]
    pub fn all_hold(
        &mut self,
        alloc: Global,
        scene: &Scene<'_>,
        why: &mut Stop,
        tests: &[Comparison],
    ) -> Option<bool>
        ensures { Tells (λ b. b) result why.new self.new (means.all_hold (all_placed scene.now.places.now) tests.now (values_in scene.now.values) self.old) }
    {
        match tests {
            [Comparison::Signed(rel, a, b)] => {
                Some(compare(*rel, signed(a, &scene.values), signed(b, &scene.values)))
            }
            tests => self.all_of(alloc, scene, why, tests),
        }
    }
}
