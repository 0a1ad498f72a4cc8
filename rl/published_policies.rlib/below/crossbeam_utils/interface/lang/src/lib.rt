pub mod rule ;
