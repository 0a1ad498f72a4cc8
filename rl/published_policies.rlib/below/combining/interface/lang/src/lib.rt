pub use questions :: Question ;
mod questions ;
