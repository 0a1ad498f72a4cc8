//! Reads what a request asks to change.

ghost use Rattle.std.specs.Prelude.{◌≡◌};
ghost use Rattle.map_changes.specs.Changing.{ReadsChange, added, change_at, deleted, reshaped};
ghost use Rattle.map_changes.specs.Faults.{Gives};
ghost use Rattle.map_changes.specs.Requests.{request_data};

use crate::edits::{ChangeRequest, Edit};
use crate::faults::ChangeFault;
use crate::givens::{added_by, reshaped_by};
use crate::media::is_read_by;
use crate::tags::version_in;
use crate::targets::{Target, target_of};
use features::{Change, Name};
use geojson::{Wished, read_wished};
use grid::Grid;
use map_asks::{Layer, is_empty_query};
use std::alloc::Allocator;

/// What is looked at of a feature to add.
pub const FOR_ADDING: Wished = Wished {
    id: true,
    class: true,
    others: false,
};

/// What is looked at of a feature to change.
pub(crate) const FOR_RESHAPING: Wished = Wished {
    id: true,
    class: false,
    others: false,
};

/// The addition of the feature in a request.
fn read_added<A: Allocator + Copy>(
    alloc: A,
    grid: &Grid,
    layer: Layer,
    request: &ChangeRequest,
) -> Result<Edit, ChangeFault>
    ensures { Gives result (added grid.now layer (request_data request.now)) }
{
    if !is_read_by(request.method, request.media) {
        return Err(ChangeFault::Media);
    }
    match read_wished(alloc, grid, FOR_ADDING, request.body) {
        Ok(given) => added_by(layer, &given),
        Err(fault) => Err(ChangeFault::Feature(fault)),
    }
}

/// The change of the shape of a version, by the feature in a request.
fn read_reshaped<A: Allocator + Copy>(
    alloc: A,
    grid: &Grid,
    id: u64,
    version: u64,
    request: &ChangeRequest,
) -> Result<Edit, ChangeFault>
    ensures { Gives result (reshaped grid.now id (request_data request.now) version) }
{
    if !is_read_by(request.method, request.media) {
        return Err(ChangeFault::Media);
    }
    match read_wished(alloc, grid, FOR_RESHAPING, request.body) {
        Ok(given) => reshaped_by(id, version, &given),
        Err(fault) => Err(ChangeFault::Feature(fault)),
    }
}

/// The removal of a version of a feature.
fn deleted(id: u64, version: u64) -> Edit
    ensures { result ≡ deleted id version }
{
    Edit {
        layer: Layer::All,
        change: Change::Delete { id, version },
    }
}

/// The change that a request asks for at what it changes.
fn read_at<A: Allocator + Copy>(
    alloc: A,
    grid: &Grid,
    target: Target,
    request: &ChangeRequest,
) -> Result<Edit, ChangeFault>
    ensures { Gives result (change_at grid.now target (request_data request.now)) }
{
    match target {
        Target::Added(layer) => read_added(alloc, grid, layer, request),
        Target::Reshaped(id) => {
            let version = version_in(request.if_match)?;
            read_reshaped(alloc, grid, id, version, request)
        }
        Target::Deleted(id) => {
            let version = version_in(request.if_match)?;
            Ok(deleted(id, version))
        }
    }
}

/// What a request to change a feature asks for, where these classes are collections and the grid
/// says which number a coordinate means.
///
/// - `POST` at the items of a collection adds the Feature (RFC 7946, 3.2) of the body. It says its
///   id. Its class is that of the collection; at `features` it says its class.
/// - `PUT` and `PATCH` (RFC 5789) at an item of `features` give the feature the geometry of the
///   body: a Feature, or a part of one (RFC 7396) that has its `type` and its `geometry`. The
///   properties `class`, `office` and `version` of the body are not looked at.
/// - `DELETE` at an item of `features` removes the feature. Its body is not looked at.
///
/// The last three say by `if-match` which version they change (RFC 9110, 13.1.1). The fault is the
/// first in this order: `NoPage`; `Method`; `Parameter` for any query; but for `POST`, `NoVersion`
/// where the field is not there or is `*`, and `WrongTag` where it is not one strong entity tag of
/// a number; but for `DELETE`, `Media`; `Feature` for a body that is no feature; `Id`; `Class`;
/// `Parts` for a geometry that is not one point, one line of two points or one ring without holes;
/// `Shape`. A fault `Feature` also says that an allocation was refused.
#[tactic(auto, unfolding(crate::specs::Changing::change_read))]
pub fn read_change<A: Allocator + Copy>(
    alloc: A,
    grid: &Grid,
    classes: &[Name],
    request: &ChangeRequest,
) -> Result<Edit, ChangeFault>
    ensures { ReadsChange grid.now classes.now (request_data request.now) result }
{
    let target = target_of(classes, request.method, request.path)?;
    if !is_empty_query(request.query) {
        return Err(ChangeFault::Parameter);
    }
    read_at(alloc, grid, target, request)
}
