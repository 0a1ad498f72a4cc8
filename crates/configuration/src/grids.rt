//! The grid of a configuration.

ghost use Rattle.std.specs.Prelude.{◌≡◌, Some, None, option_map};
ghost use Rattle.std.specs.Option.{ok_or};
ghost use Rattle.serde_json.specs.View.{view};
ghost use Rattle.configuration.specs.ConfigFaults.{Shows};
ghost use Rattle.configuration.specs.Configs.{between_in, between_named, grid_data, grid_from, grid_in, grid_member, origin_in, text_at, grid_path};

use crate::fields::{is_object_of, value_in};
use crate::paths::{ConfigPath, MemberName};
use grid::{Between, Grid, MOST_DECIMALS};
use serde_json::Value;

const GRID_KEYS: [MemberName; 3] = [
    MemberName::Origin,
    MemberName::Decimals,
    MemberName::Between,
];

/// The text at an index of an array.
fn text_at(value: &Value, index: usize) -> Option<&str>
    ensures { option_map (λ text. text.now) result ≡ text_at index (view value.now) }
{
    value.get(index)?.as_str()
}

/// The two texts of an origin.
fn origin_in(value: &Value) -> Option<(&str, &str)>
    ensures { ok_or (option_map (λ texts. (texts.0.now, texts.1.now)) result) grid_path
        ≡ origin_in (view value.now) }
{
    let x = text_at(value, 0)?;
    let y = text_at(value, 1)?;
    match value.get(2) {
        Some(_) => None,
        None => Some((x, y)),
    }
}

/// What becomes of a number between two steps, by its name.
fn between_named(name: &str) -> Option<Between>
    ensures { result ≡ between_named name.now }
{
    if name == "refuse" {
        Some(Between::Refuse)
    } else if name == "nearest" {
        Some(Between::Nearest)
    } else {
        None
    }
}

/// What becomes of a number between two steps; it is refused where nothing is said.
fn between_in(value: Option<&Value>) -> Option<Between>
    ensures { ok_or result grid_path ≡ between_in (option_map (λ v. view v.now) value.entry) }
{
    match value {
        Some(value) => between_named(value.as_str()?),
        None => Some(Between::Refuse),
    }
}

/// The grid of an origin, of decimals, and of what becomes of a number between two steps.
#[tactic(auto, using(crate::proofs::GridLemmas::from_new, crate::proofs::GridLemmas::from_fault, crate::proofs::GridLemmas::too_many))]
fn grid_from(x: &str, y: &str, decimals: u64, between: Between) -> Option<Grid>
    ensures { ok_or (option_map grid_data result) grid_path ≡ grid_from x.now y.now decimals between }
{
    if decimals > u64::from(MOST_DECIMALS) {
        return None;
    }
    match Grid::new(x.as_bytes(), y.as_bytes(), decimals as u8, between) {
        Ok(grid) => Some(grid),
        Err(_) => None,
    }
}

/// The grid that a JSON value spells, or `None`.
#[tactic(auto, unfolding(crate::specs::Configs::grid_in))]
fn grid_in(value: &Value) -> Option<Grid>
    ensures { ok_or (option_map grid_data result) grid_path ≡ grid_in (view value.now) }
{
    if !is_object_of(value, &GRID_KEYS) {
        return None;
    }
    let origin = value_in(value, MemberName::Origin)?;
    let (x, y) = origin_in(origin)?;
    let decimals = value_in(value, MemberName::Decimals)?.as_u64()?;
    let between = between_in(value_in(value, MemberName::Between))?;
    grid_from(x, y, decimals, between)
}

/// The grid under the key, if there is one.
pub(crate) fn grid_member(value: Option<&Value>) -> Result<Option<Grid>, ConfigPath>
    ensures { Shows (option_map grid_data) result
        (grid_member (option_map (λ v. view v.now) value.entry)) }
{
    let Some(value) = value else {
        return Ok(None);
    };
    match grid_in(value) {
        Some(grid) => Ok(Some(grid)),
        None => Err(ConfigPath::Member(MemberName::Grid)),
    }
}
