# [ derive ( Clone , Copy , Debug , PartialEq , Eq ) ] pub enum Ruling { Permit ( Option < u32 > ) , DeniedBy ( u32 ) , NoneApplied , }
