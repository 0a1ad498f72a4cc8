//! Features from a file to a server, and from a server to a file: the rows of a file one after
//! another, what each says, and how it goes on. It knows no file and no socket.
#![tactic(auto)]

mod exports;
mod faults;
mod forms;
mod geometry_texts;
mod imports;
mod refusals;
mod replies;
mod rows;
mod shapes;
mod sources;

pub use exports::{ExportFault, Wanted, export, greet};
pub use faults::{GeometryFault, RowFault, SourceFault};
pub use forms::{Form, put_feature, put_head, put_tail};
pub use geometry_texts::read_geometry;
pub use imports::{
    Books, BooksFault, ImportFault, Importing, Plan, Script, Sink, SinkFault, Totals,
};
pub use refusals::{REFUSED_HEADER, kept_len, put_refusal, put_reply};
pub use replies::{feature_of_row, whole_window};
pub use rows::{Found, Table, row_of_csv, row_of_json, table_of};
pub use shapes::shapes_of;
pub use sources::{ROW_LIMIT, Source, SourceForm};
