pub mod io ;
