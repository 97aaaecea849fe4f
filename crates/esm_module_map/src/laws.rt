//! Laws of histories, each the contract of a function without effect.
ghost use Rattle.esm_module_map.specs.Laws.{GuideStays, OrdersStay, PostedOnce, PostsAreAnswers, PostsFit, PostsStay, TakenOnce, TakenOnceByMakers, TakesWereAsked, UrlsAreUsable, UrlsDiffer, UrlsStay};

use crate::event::Payload;

/// In a legal history each number is taken at most once.
pub fn taken_once<P: Payload>()
    ensures { TakenOnce P P.Guide P.weight }
{}

/// In a legal history each number is posted at most once.
pub fn posted_once<P: Payload>()
    ensures { PostedOnce P P.Guide P.weight }
{}

/// The URLs of numbers differ.
pub fn urls_differ<P: Payload>()
    ensures { UrlsDiffer P P.Guide P.weight }
{}

/// A number keeps its URL as the history grows.
pub fn urls_stay<P: Payload>()
    ensures { UrlsStay P P.Guide P.weight }
{}

/// In a legal history the URLs of numbers are usable.
pub fn urls_are_usable<P: Payload>()
    ensures { UrlsAreUsable P P.Guide P.weight }
{}

/// The guide stays as the history grows.
pub fn guide_stays<P: Payload>()
    ensures { GuideStays P P.Guide }
{}

/// Where each post of a history fits as it is posted, each fits the URL of its number by the guide of the whole.
pub fn posts_fit<P: Payload>()
    ensures { PostsFit P P.Guide P.weight P.fits }
{}

/// What is posted stays so as the history grows.
pub fn posts_stay<P: Payload>()
    ensures { PostsStay P P.Guide }
{}

/// What a caller has taken and not posted is its order still in what a call of it finds, whatever others did meanwhile.
pub fn orders_stay<P: Payload>()
    ensures { OrdersStay P P.Guide P.weight }
{}

/// In a legal history what is posted was posted by a caller, under the URL of its number, what is taken was asked for,
/// and where each maker of an event is listed once, the listed callers have taken no URL twice.
pub fn callers<P: Payload>()
    ensures posts { PostsAreAnswers P P.Guide P.weight }
    ensures takes { TakesWereAsked P P.Guide P.weight }
    ensures once { TakenOnceByMakers P P.Guide P.weight }
{}
