# [ derive ( Clone , Copy ) ] pub struct Group { tags : [ u8 ; 16 ] , indices : [ u32 ; 12 ] , }
