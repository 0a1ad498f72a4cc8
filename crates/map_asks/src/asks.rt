//! What a request asks for.

use crate::windows::Window;
use features::Name;

/// A collection of features.
#[derive(Clone, Copy, Debug)]
pub enum Layer {
    /// All features, as the collection `features`.
    All,
    /// The features of a class, as the collection of that name.
    Class(Name),
}

/// A page that is the same whatever the map has.
#[derive(Clone, Copy, Debug)]
pub enum FixedPage {
    /// `/`: the landing page.
    Landing,
    /// `/api`: the description of the pages for programs.
    Api,
    /// `/conformance`: which parts of the standard are kept.
    Conformance,
    /// `/collections`: all collections.
    Collections,
    /// `/collections/C`: one of them.
    Collection(Layer),
    /// `/map`: the page that shows the map in a browser.
    Map,
}

/// Where the features of a page come from.
#[derive(Clone, Copy, Debug)]
pub enum Source {
    /// From a search of this window.
    Search(Window),
    /// From the kept answer of this number; where `after` is given, those with a greater id.
    Kept { number: u64, after: Option<u64> },
}

/// A page of features.
#[derive(Clone, Copy, Debug)]
pub struct Items {
    pub source: Source,
    /// The most features of the page.
    pub limit: u64,
}

/// What a request asks for.
#[derive(Clone, Copy, Debug)]
pub enum Ask {
    /// A page that is the same whatever the map has.
    Fixed(FixedPage),
    /// `/collections/C/items`: a page of features.
    Items(Layer, Items),
    /// `/collections/C/items/ID`: the feature of this id.
    Item(Layer, u64),
}

/// The page that a path names.
#[derive(Clone, Copy, Debug)]
pub enum Page {
    /// A page that is the same whatever the map has.
    Fixed(FixedPage),
    /// `/collections/C/items`.
    Items(Layer),
    /// `/collections/C/items/ID`.
    Item(Layer, u64),
}
