//! A float program over listed columns.

ghost use Rattle.std.specs.Prelude.{◌≡◌};

use lp_float_programs::{FloatProgram, FloatSolved, Key, Limits, Sign};
use lp_fractions::Place;
use model_rosters::{List, Memory};
use search_node_columns::{Held, Kind};
use search_watch::Watch;
use std::alloc::Global;

/// What an artificial column costs in a float program at most.
pub(crate) const ARTIFICIAL: i64 = 131_072;

/// Sets the number of a row.
fn set<T: Copy + Drop>(numbers: &mut [T], row: usize, number: T) {
    if let Some(place) = numbers.get_mut(row) {
        *place = number;
    }
}

/// Sets the costs of the rows' own columns.
fn set_costs(held: &[Held], missing: &mut [i64], beyond: &mut [Option<i64>]) {
    for one in held {
        match one.kind {
            Kind::Missing(row) => set(missing, row, one.cost.min(ARTIFICIAL)),
            Kind::Beyond(row) => set(beyond, row, Some(one.cost)),
            Kind::OfTree(_) => {}
        }
    }
}

/// Lists the column of a tree in a float program.
fn list_column(
    float_program: &mut FloatProgram,
    cost: i64,
    places: &[Place],
) -> Result<(), Memory> {
    let _number = float_program.add_column(cost)?;
    for place in places {
        let sign = if place.value < 0 {
            Sign::Minus
        } else {
            Sign::Plus
        };
        float_program.add_entry(place.row, sign)?;
    }
    Ok(())
}

/// Whether a column is that of a tree of the pool.
fn is_of_tree(one: &Held, tree: usize) -> bool {
    match one.kind {
        Kind::OfTree(number) => number == tree,
        _ => false,
    }
}

/// Whether the column of a tree is among the first ones of a list.
fn is_before(held: &[Held], place: usize, tree: usize) -> bool {
    held.iter().take(place).any(|one| is_of_tree(one, tree))
}

/// Lists the trees among columns in a float program, from a place on. A tree that is among the columns before
/// gets a column without entries, which never enters.
///
/// # Errors
///
/// `Memory` where memory runs out; some of them may be listed then.
pub(crate) fn list_trees(
    float_program: &mut FloatProgram,
    held: &[Held],
    first: usize,
) -> Result<(), Memory> {
    for (place, one) in held.iter().enumerate().skip(first) {
        if let Kind::OfTree(tree) = one.kind {
            if is_before(held, place, tree) {
                let _number = float_program.add_column(0)?;
            } else {
                list_column(float_program, one.cost, one.places.as_slice())?;
            }
        }
    }
    Ok(())
}

/// Returns a float program with the rows' own columns among these.
fn float_program_of_rows(
    alloc: Global,
    held: &[Held],
    right: &[i64],
) -> Result<FloatProgram, Memory> {
    let mut missing = vec![in alloc; 0i64; right.len()]?;
    let mut beyond = vec![in alloc; None; right.len()]?;
    set_costs(held, missing.as_mut_slice(), beyond.as_mut_slice());
    FloatProgram::new(alloc, right, missing.as_slice(), beyond.as_slice())
}

/// The steps within which a start from a basis comes to an end.
const BEGIN: Limits = Limits {
    dual: 400,
    primal: 400,
};

/// Starts a float program from a basis, if there is one; where that comes to no end soon, from the rows' own
/// columns again.
pub(crate) fn begin<W: Watch>(float_program: &mut FloatProgram, keys: &[Key], watch: &W) {
    if keys.is_empty() {
        return;
    }
    if float_program.start(keys).is_err()
        || float_program.run(BEGIN, watch) != FloatSolved::Optimal
    {
        let _started = float_program.start_beyond();
    }
}

/// Returns the columns of rows in the basis of a float program.
///
/// # Errors
///
/// `Memory` where memory runs out; nothing is kept then.
pub(crate) fn own_keys(alloc: Global, float_program: &FloatProgram) -> Result<List<Key>, Memory> {
    let mut keys = List::new(alloc);
    for place in 0..float_program.rows() {
        match float_program.basic(place) {
            Some(Key::Listed(_)) | None => {}
            Some(key) => keys.push(key)?,
        }
    }
    Ok(keys)
}

/// Returns a float program with these columns, started for dual steps.
///
/// # Errors
///
/// `Memory` where memory runs out; nothing is kept then.
pub(crate) fn float_program_of(
    alloc: Global,
    held: &[Held],
    right: &[i64],
) -> Result<FloatProgram, Memory> {
    let mut float_program = float_program_of_rows(alloc, held, right)?;
    list_trees(&mut float_program, held, 0)?;
    let _started = float_program.start_beyond();
    Ok(float_program)
}

/// Returns the place of the first tree among columns.
fn first_tree(held: &[Held]) -> usize {
    for (place, one) in held.iter().enumerate() {
        if let Kind::OfTree(_) = one.kind {
            return place;
        }
    }
    held.len()
}

/// Returns the tree of the pool in the basis of a float program at a place, if there is one.
fn basic_tree(
    held: &[Held],
    first: usize,
    float_program: &FloatProgram,
    place: usize,
) -> Option<usize> {
    let Some(Key::Listed(number)) = float_program.basic(place) else {
        return None;
    };
    let one = held.get(first.saturating_add(number))?;
    match one.kind {
        Kind::OfTree(tree) => Some(tree),
        _ => None,
    }
}

/// Returns the trees of the pool in the basis of a float program, of which these are the columns.
///
/// # Errors
///
/// `Memory` where memory runs out; nothing is kept then.
pub(crate) fn basic_trees(
    alloc: Global,
    held: &[Held],
    float_program: &FloatProgram,
) -> Result<List<usize>, Memory> {
    let first = first_tree(held);
    let mut trees = List::new(alloc);
    for place in 0..float_program.rows() {
        if let Some(tree) = basic_tree(held, first, float_program, place) {
            trees.push(tree)?;
        }
    }
    Ok(trees)
}

/// Returns the tree of the pool at each place of the basis of a float program, where there is one.
///
/// # Errors
///
/// `Memory` where memory runs out; nothing is kept then.
pub(crate) fn placed_trees(
    alloc: Global,
    held: &[Held],
    float_program: &FloatProgram,
) -> Result<List<Option<usize>>, Memory> {
    let first = first_tree(held);
    let mut trees = List::new(alloc);
    for place in 0..float_program.rows() {
        trees.push(basic_tree(held, first, float_program, place))?;
    }
    Ok(trees)
}

/// Whether a column is that of a row with this key.
fn is_own(one: &Held, key: Key) -> bool {
    match (one.kind, key) {
        (Kind::Missing(row), Key::Missing(other)) => row == other,
        (Kind::Beyond(row), Key::Beyond(other)) => row == other,
        _ => false,
    }
}

/// Returns the column of a row with this key.
fn own_column(held: &[Held], key: Key) -> Option<u32> {
    for (column, one) in held.iter().enumerate() {
        if is_own(one, key) {
            return u32::try_from(column).ok();
        }
    }
    None
}

/// Returns the columns of the rows in the basis of a float program.
///
/// # Errors
///
/// `Memory` where memory runs out; nothing is kept then.
pub(crate) fn basic_own(
    alloc: Global,
    held: &[Held],
    float_program: &FloatProgram,
) -> Result<List<u32>, Memory> {
    let mut columns = List::new(alloc);
    for place in 0..float_program.rows() {
        if let Some(key) = float_program.basic(place) {
            if let Some(column) = own_column(held, key) {
                columns.push(column)?;
            }
        }
    }
    Ok(columns)
}
