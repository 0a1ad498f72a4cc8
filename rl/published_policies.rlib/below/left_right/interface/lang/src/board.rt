use atomic_table :: Seat ;
use atomic_table :: Table ;
use atomic_table :: TableRule ;
use crate :: part :: Part ;
use crossbeam_utils :: rule :: Protocol ;
use std :: marker :: PhantomData ;
use std :: snapshot :: Snapshot ;
pub type Board < T , V , P , A > = Table < Option < Part < T >> , Doing < T , V > , Snapshot < Part < T >> , Sides < P > , A > ;
pub struct Doing < T , V > { pub role : Role < T > , pub client : V , }
pub type Place < T , V > = Seat < Option < Part < T >> , Doing < T , V >> ;
pub struct Plan < T > { pub side : u64 , pub off : u64 , pub left : u64 , pub filled : u64 , pub hand : u64 , pub fresh : u64 , pub last : [ u64 ; 0 ] , pub shown : Part < T > , pub spare : Part < T > , }
pub enum Role < T > { Idle , Out ( u64 ) , In ( u64 ) , Holds ( u64 , u64 , Part < T > ) , Writer ( Plan < T > ) , }
pub struct Sides < P > { protocol : PhantomData < P > , }
# [ read_as = "1d52e87876ef45806fdadf8612765c8b3327d6e82b77108aba59d1732aece404" ] impl < T , V , P : Protocol < T , V >> TableRule < Option < Part < T >> , Doing < T , V > , Snapshot < Part < T >>> for Sides < P > as SidesTableRuleOptionPartDoingSnapshotPart {
    ghost use Rattle.left_right.specs.Sides.{Sided, starting};
    ghost holds = { λ _. Sided P.holds };
    ghost first = { λ key. starting key.value P.first };
}
