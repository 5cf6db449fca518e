//! The steps of statements.

ghost use Rattle.std.specs.Prelude.{◌≡◌, ◌^◌, map, pos, ◌≤ℤ◌};
ghost use Rattle.std.specs.Int.{int_gap};
ghost use Rattle.c_tree.specs.Values.{count_of, loop_values, word_bin};
ghost use Rattle.interp.specs.Values.{values_in};
ghost use Rattle.interp.specs.Places.{all_placed};
ghost use Rattle.interp.specs.Meaning.{word_of};
ghost use Rattle.interp.specs.Machine.{Gives, Tells, after, loads, stores, entry_of};
ghost use Rattle.interp.specs.Steps.{does, in_order, over, turn, set_word_by, set_wide_by, updated, new_cell, store_by, set_entry_by, make_table_by};

use crate::machine::Machine;
use crate::scene::Scene;
use crate::signed::signed;
use crate::slots::{Step, WideExpr, WordExpr};
use crate::stop::Stop;
use crate::subscripts::find_signed;
use crate::words;
use c_tree::{BinOp, Rel};
use sqlite_items::Items;
use std::alloc::Global;

/// Just past the last value of a loop.
fn end_of(lo: i64, rel: Rel, hi: i64) -> i128
    ensures count { int_gap lo result ≡ count_of lo rel hi }
    ensures within { result ≤ℤ pos (2 ^ 63) }
{
    match rel {
        Rel::Lt => hi as i128,
        Rel::Le => hi as i128 + 1,
        _ => lo as i128,
    }
}

impl Machine {
    /// Runs a statement.
    #[cycle(exec)]
    #[inline(never)]
    fn exec<'x>(
        &mut self,
        alloc: Global,
        scene: &'x Scene<'x>,
        why: &mut Stop,
        step: &'x Step,
    ) -> Option<()>
        ensures { Tells (λ u. u) result why.new self.new (does (all_placed scene.now.places.now) step.now (values_in scene.now.values) self.old) }
    {
        match step {
            Step::Loop { lo, rel, hi, body } => {
                let lo = signed(lo, &scene.values);
                let hi = signed(hi, &scene.values);
                self.over(alloc, scene, why, lo, *rel, hi, body)
            }
            Step::Choice {
                tests,
                first,
                other,
            } => if self.all_hold(alloc, scene, why, tests.as_slice())? {
                self.exec_all(alloc, scene, why, first)
            } else {
                self.exec_other(alloc, scene, why, other)
            },
            Step::SetWord { word, op, value } => {
                self.assign_word(alloc, scene, why, *word, *op, value)
            }
            Step::SetWide { wide, op, value } => {
                self.assign_wide(alloc, scene, why, *wide, *op, value)
            }
            Step::Store {
                array,
                at,
                op,
                value,
            } => self.assign_cell(alloc, scene, why, *array, at, *op, value),
            Step::SetEntry {
                table,
                at,
                op,
                value,
            } => self.assign_entry(alloc, scene, why, *table, at, *op, value),
            Step::Table { table, length } => self.make(alloc, scene, why, *table, length),
            Step::Check {
                word,
                extent,
                array,
            } => if self.word_at(*word) < words::as_word(signed(extent, &scene.values)) {
                Some(())
            } else {
                *why = Stop::Index(*array);
                None
            },
            Step::Begin => {
                self.begin();
                Some(())
            }
            Step::Verdict => {
                *why = Stop::Judged;
                None
            }
            Step::Nothing => Some(()),
        }
    }

    /// Runs statements of which there are often none.
    #[cycle(exec)]
    #[inline(always)]
    fn exec_other<'x>(
        &mut self,
        alloc: Global,
        scene: &'x Scene<'x>,
        why: &mut Stop,
        body: &'x Items<Step>,
    ) -> Option<()>
        ensures { Tells (λ u. u) result why.new self.new (in_order (map (does (all_placed scene.now.places.now)) body.now) (values_in scene.now.values) self.old) }
    {
        if body.is_empty() {
            Some(())
        } else {
            self.exec_all(alloc, scene, why, body)
        }
    }

    /// Runs statements one after the other.
    #[cycle(exec)]
    fn exec_all<'x>(
        &mut self,
        alloc: Global,
        scene: &'x Scene<'x>,
        why: &mut Stop,
        body: &'x Items<Step>,
    ) -> Option<()>
        ensures { Tells (λ u. u) result why.new self.new (in_order (map (does (all_placed scene.now.places.now)) body.now) (values_in scene.now.values) self.old) }
    {
        for step in body.as_slice() {
            self.exec(alloc, scene, why, step)?;
        }
        Some(())
    }

    /// Runs a body for each value of a loop.
    #[cycle(exec)]
    fn over<'x>(
        &mut self,
        alloc: Global,
        scene: &'x Scene<'x>,
        why: &mut Stop,
        lo: i64,
        rel: Rel,
        hi: i64,
        body: &'x Items<Step>,
    ) -> Option<()>
        ensures { Tells (λ u. u) result why.new self.new (over (turn (map (does (all_placed scene.now.places.now)) body.now) (values_in scene.now.values)) (loop_values lo rel hi) self.old) }
    {
        let end = end_of(lo, rel, hi);
        let mut inner = Scene {
            places: scene.places,
            values: scene.values.deeper(),
        };
        for v in lo as i128..end {
            self.count_turn();
            inner.values.set_nearest(v as i64);
            self.exec_all(alloc, &inner, why, body)?;
        }
        Some(())
    }

    fn assign_word(
        &mut self,
        alloc: Global,
        scene: &Scene<'_>,
        why: &mut Stop,
        slot: usize,
        op: Option<BinOp>,
        value: &WordExpr,
    ) -> Option<()>
        ensures { Tells (λ u. u) result why.new self.new (set_word_by (all_placed scene.now.places.now) slot op value.now (values_in scene.now.values) self.old) }
    {
        let old = self.word_at(slot);
        let value = self.word(alloc, scene, why, value)?;
        let new = match op {
            None => value,
            Some(op) => words::bin(op, old, value),
        };
        self.set_word(slot, new);
        Some(())
    }

    fn assign_wide(
        &mut self,
        alloc: Global,
        scene: &Scene<'_>,
        why: &mut Stop,
        slot: usize,
        op: Option<BinOp>,
        value: &WideExpr,
    ) -> Option<()>
        ensures { Tells (λ u. u) result why.new self.new (set_wide_by (all_placed scene.now.places.now) slot op value.now (values_in scene.now.values) self.old) }
    {
        let old = self.wide_at(slot);
        let value = self.wide(alloc, scene, why, value)?;
        let new = match op {
            None => value,
            Some(op) => words::wide_op(op, old, value),
        };
        self.set_wide(slot, new);
        Some(())
    }

    /// The word that an assignment stores into the cell of a place.
    fn updated_at(
        &mut self,
        alloc: Global,
        scene: &Scene<'_>,
        why: &mut Stop,
        place: u64,
        op: Option<BinOp>,
        value: &WordExpr,
    ) -> Option<u64>
        ensures { Tells (λ n. n) result why.new self.new (updated word_bin op (loads place) (word_of (all_placed scene.now.places.now) value.now (values_in scene.now.values)) self.old) }
    {
        match op {
            None => self.word(alloc, scene, why, value),
            Some(op) => {
                let old = self.load(place);
                Some(words::bin(op, old, self.word(alloc, scene, why, value)?))
            }
        }
    }

    /// Assigns to the cell of a place.
    fn assign_at(
        &mut self,
        alloc: Global,
        scene: &Scene<'_>,
        why: &mut Stop,
        place: u64,
        op: Option<BinOp>,
        value: &WordExpr,
    ) -> Option<()>
        ensures { Tells (λ u. u) result why.new self.new (after (updated word_bin op (loads place) (word_of (all_placed scene.now.places.now) value.now (values_in scene.now.values)) self.old) (λ n. stores place n)) }
    {
        let new = self.updated_at(alloc, scene, why, place, op, value)?;
        self.store(place, new);
        Some(())
    }

    /// Assigns to a cell. One that signed subscripts don't lead to goes by the list of its coordinates.
    fn assign_cell(
        &mut self,
        alloc: Global,
        scene: &Scene<'_>,
        why: &mut Stop,
        array: u32,
        at: &Items<WordExpr>,
        op: Option<BinOp>,
        value: &WordExpr,
    ) -> Option<()>
        ensures { Tells (λ u. u) result why.new self.new (store_by (all_placed scene.now.places.now) array at.now op value.now (values_in scene.now.values) self.old) }
    {
        match find_signed(scene, array, at.as_slice()) {
            Some(place) => self.assign_at(alloc, scene, why, place, op, value),
            None => self.assign_by_list(alloc, scene, why, array, at, op, value),
        }
    }

    /// The word that an assignment stores into a cell.
    fn updated(
        &mut self,
        alloc: Global,
        scene: &Scene<'_>,
        why: &mut Stop,
        array: u32,
        at: &[i128],
        op: Option<BinOp>,
        value: &WordExpr,
    ) -> Option<u64>
        ensures { Tells (λ n. n) result why.new self.new (new_cell (all_placed scene.now.places.now) array op value.now (values_in scene.now.values) at.now self.old) }
    {
        match op {
            None => self.word(alloc, scene, why, value),
            Some(op) => {
                let place = self.find(scene.places, why, array, at)?;
                let old = self.load(place);
                Some(words::bin(op, old, self.word(alloc, scene, why, value)?))
            }
        }
    }

    /// Assigns to a cell, by the list of its coordinates.
    #[inline(never)]
    fn assign_by_list(
        &mut self,
        alloc: Global,
        scene: &Scene<'_>,
        why: &mut Stop,
        array: u32,
        at: &Items<WordExpr>,
        op: Option<BinOp>,
        value: &WordExpr,
    ) -> Option<()>
        ensures { Tells (λ u. u) result why.new self.new (store_by (all_placed scene.now.places.now) array at.now op value.now (values_in scene.now.values) self.old) }
    {
        let at = self.coordinates(alloc, scene, why, at)?;
        let new = self.updated(alloc, scene, why, array, at.as_slice(), op, value)?;
        let place = self.find(scene.places, why, array, at.as_slice())?;
        self.store(place, new);
        Some(())
    }

    /// The word that an assignment stores into an entry of a table.
    fn updated_entry(
        &mut self,
        alloc: Global,
        scene: &Scene<'_>,
        why: &mut Stop,
        table: usize,
        at: u64,
        op: Option<BinOp>,
        value: &WordExpr,
    ) -> Option<u64>
        ensures { Tells (λ n. n) result why.new self.new (updated word_bin op (entry_of table at) (word_of (all_placed scene.now.places.now) value.now (values_in scene.now.values)) self.old) }
    {
        match op {
            None => self.word(alloc, scene, why, value),
            Some(op) => {
                let old = self.entry_at(table, at);
                Some(words::bin(op, old, self.word(alloc, scene, why, value)?))
            }
        }
    }

    /// Assigns to an entry of a table.
    #[inline(never)]
    fn assign_entry(
        &mut self,
        alloc: Global,
        scene: &Scene<'_>,
        why: &mut Stop,
        table: usize,
        at: &WordExpr,
        op: Option<BinOp>,
        value: &WordExpr,
    ) -> Option<()>
        ensures { Tells (λ u. u) result why.new self.new (set_entry_by (all_placed scene.now.places.now) table at.now op value.now (values_in scene.now.values) self.old) }
    {
        let at = self.word(alloc, scene, why, at)?;
        let new = self.updated_entry(alloc, scene, why, table, at, op, value)?;
        self.set_entry(table, at, new);
        Some(())
    }

    /// Makes a table.
    #[inline(never)]
    fn make(
        &mut self,
        alloc: Global,
        scene: &Scene<'_>,
        why: &mut Stop,
        table: usize,
        length: &WordExpr,
    ) -> Option<()>
        ensures { Tells (λ u. u) result why.new self.new (make_table_by (all_placed scene.now.places.now) table length.now (values_in scene.now.values) self.old) }
    {
        let length = self.word(alloc, scene, why, length)?;
        if self.make_table(alloc, table, length).is_err() {
            *why = Stop::NoMemory;
            return None;
        }
        Some(())
    }

    /// Runs the body of a unit.
    pub fn run(&mut self, alloc: Global, scene: &Scene<'_>, body: &Items<Step>) -> Result<(), Stop>
        ensures { Gives (λ u. u) result self.new (in_order (map (does (all_placed scene.now.places.now)) body.now) (values_in scene.now.values) self.old) }
    {
        // What stops writes its reason over this.
        let mut why = Stop::Judged;
        match self.exec_all(alloc, scene, &mut why, body) {
            Some(()) => Ok(()),
            None => Err(why),
        }
    }
}
