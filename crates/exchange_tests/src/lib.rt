//! Tests of what goes through files: grids, GeoJSON and rows, parts of shapes, exports and imports,
//! drawings.
#![tactic(auto)]

#[cfg(test)]
mod csv_tests;
#[cfg(test)]
mod export_tests;
#[cfg(test)]
mod fault_tests;
#[cfg(test)]
mod geojson_tests;
#[cfg(test)]
mod geometry_tests;
#[cfg(test)]
mod grid_tests;
#[cfg(test)]
mod import_tests;
#[cfg(test)]
mod list_tests;
#[cfg(test)]
mod map_tests;
#[cfg(test)]
mod parts_tests;
#[cfg(test)]
mod reply_tests;
#[cfg(test)]
mod runs;
#[cfg(test)]
mod source_tests;
#[cfg(test)]
mod streams;
#[cfg(test)]
mod texts;
