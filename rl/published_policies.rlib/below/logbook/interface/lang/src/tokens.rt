use std :: marker :: Model ;
use std :: marker :: PhantomData ;
pub trait Gain < E , A > {
    ghost after: { List ℕ → List E → A → Fml };
}
pub struct Gained < E , A , G : Gain < E , A >> { pub marker : PhantomData < ( E , A , G ) > ,
    pub ghost names: { List ℕ } ,
    pub ghost about: { List E } by { coded_list E.code } ,
    pub ghost answer: { A } , }
pub struct Offer < E , A , P : Rule < E , A > , G : Gain < E , A >> { pub marker : PhantomData < ( E , A , P , G ) > ,
    pub ghost names: { List ℕ } ,
    pub ghost ask: { E } ,
    pub ghost about: { List E } by { coded_list E.code } ,
    pub ghost state: { Option A } by { state_coded A.code } , }
pub trait Opening < X , E > {
    ghost log: { ℕ → X → List E };
}
pub struct Pen { marker : PhantomData < ( ) > ,
    pub ghost book: { Book } by { book_coded } ,
    pub ghost nib: { Nib } by { nib_coded } , }
pub struct Pens { marker : PhantomData < ( ) > ,
    pub ghost book: { Book } by { book_coded } ,
    pub ghost next: { ℕ } ,
    pub ghost left: { ℕ } , }
pub trait Plain < X , E , A > {
    ghost ask: { X → E };
    ghost state: { X → Option A };
}
pub trait Rule < E , A > {
    ghost holds: { List Cell → List E → Type 0 };
    ghost first: { List E };
    ghost hinted: { ℕ → List E → Type 0 };
    ghost shows: { List E → List E };
    ghost keeps: { List ℕ → List E → Fml };
    ghost moves: { E → List E → List E → A → Type 0 };
}
pub struct Seen < E , A , P : Rule < E , A >> { marker : PhantomData < ( E , A , P ) > ,
    pub ghost book: { Book } by { book_coded } ,
    pub ghost names: { List ℕ } ,
    pub ghost log: { List E } by { coded_list E.code } , }
pub struct Start < E , A , P : Rule < E , A >> { pub marker : PhantomData < ( E , A , P ) > ,
    pub ghost names: { List ℕ } ,
    pub ghost shown: { List E } by { coded_list E.code } , }
impl < E , A , G : Gain < E , A >> Model for Gained < E , A , G > {
    ghost also_owns = { λ d. G.after d.names d.about d.answer };
}
impl < E , A , P : Rule < E , A > , G : Gain < E , A >> Drop for Offer < E , A , P , G > {
fn drop ( self ) ;
}
impl < E , A , P : Rule < E , A > , G : Gain < E , A >> Model for Offer < E , A , P , G > {
    ghost also_owns = { λ u. offer_owns (P.keeps u.names) (P.moves u.ask) (G.after u.names u.about) u.state };
}
impl < E , A , P : Rule < E , A > , G : Gain < E , A >> Offer < E , A , P , G > {
pub fn into_gain ( self ) -> Gained < E , A , G >
        requires { }
        ensures { } ;
}
impl < E , A , P : Rule < E , A >> Drop for Seen < E , A , P > {
fn drop ( self ) ;
}
impl < E , A , P : Rule < E , A >> Model for Seen < E , A , P > {
    ghost also_owns = { λ s. seen_owns E.row.coded.code (rules P.holds P.shows P.keeps) s.book s.names s.log };
    ghost also_shares = { λ s _ κ. said (seen_owns E.row.coded.code (rules P.holds P.shows P.keeps) s.book s.names s.log) κ };
}
impl < E , A , P : Rule < E , A >> Model for Start < E , A , P > {
    ghost also_owns = { λ s. P.keeps s.names s.shown };
}
impl < E , A , P : Rule < E , A >> Seen < E , A , P > {
pub fn again ( & self ) -> Seen < E , A , P >
        ensures { } ;
pub fn learn ( & mut self , other : & Seen < E , A , P > )
        requires { }
        ensures { } ;
pub fn no_pen ( & self ) -> Pen
        ensures { } ;
pub fn open ( start : Start < E , A , P > , first : u64 , second : u64 ) -> ( Seen < E , A , P > , Pen , Pen )
        requires { }
        ensures { } ;
pub fn open_row < X , M : Opening < X , E >> ( about : & X , start : Start < E , A , P > , count : usize , ) -> ( Seen < E , A , P > , Pens )
        requires { }
        ensures { } ;
pub fn plain < G : Gain < E , A > , X , M : Plain < X , E , A >> ( & self , about : & X ) -> Offer < E , A , P , G >
        requires { }
        ensures { } ;
}
impl < E , A , P : Rule < E , A >> Start < E , A , P > {
pub fn alone ( ) -> Start < E , A , P >
        requires { }
        ensures { } ;
}
impl Drop for Pen {
fn drop ( self ) ;
}
impl Drop for Pens {
fn drop ( self ) ;
}
impl Model for Pen {
    ghost also_owns = { λ p. pen_owns p.book p.nib };
}
impl Model for Pens {
    ghost also_owns = { λ p. pens_own p.book.cells_name p.next p.left };
}
impl Pens {
pub fn take ( & mut self ) -> Pen
        requires { }
        ensures pen { }
        ensures rest { } ;
}
unsafe impl < E , A , P : Rule < E , A >> Send for Seen < E , A , P > {
}
unsafe impl < E , A , P : Rule < E , A >> Sync for Seen < E , A , P > {
}
unsafe impl Send for Pen {
}
