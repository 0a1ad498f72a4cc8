pub use actors :: Action ;
pub use actors :: Subject ;
pub use names :: Name ;
mod actors ;
mod names ;
