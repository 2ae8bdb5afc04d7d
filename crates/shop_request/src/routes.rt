//! The routes: their methods, their paths, and which one a path takes.

ghost use Rattle.std.specs.Prelude.{◌≡◌, length, IfOk, OnOk};
ghost use Rattle.shop_request.specs.Routes.{all_routes, route_of, route_start, route_text, takes_body, with_route, with_routes};

use matchit::{InsertError, Router};
use std::alloc::{AllocError, Global};

/// What a request is about.
#[derive(Clone, Copy, Debug, PartialEq, Eq)]
pub enum Route {
    /// POST `/message`: a message.
    Message,
    /// POST `/plan`: the query for a plan.
    Plan,
    /// POST `/plans`: the question for plans of all that is open of a material.
    Plans,
    /// POST `/bound`: the query for a bound.
    Bound,
    /// POST `/backup`: a backup; its body says nothing.
    Backup,
    /// GET `/totals/{material}`.
    Totals,
    /// GET `/rack/{material}`.
    Rack,
    /// GET `/trace/{act}/{node}`.
    Trace,
    /// GET `/demand/{demand}`.
    Demand,
    /// GET `/ticket/{job}`.
    Ticket,
    /// GET `/yield/{material}`.
    Yield,
    /// GET `/materials`.
    Materials,
    /// GET `/parts/{material}`.
    Parts,
    /// GET `/parts/{material}/{act}/{node}`: after that name.
    PartsAfter,
    /// GET `/demands/{after}`.
    Demands,
    /// GET `/demands/{after}/{material}`.
    DemandsOf,
    /// GET `/orders`.
    Orders,
    /// GET `/orders/{order}`: after that code.
    OrdersAfter,
    /// GET `/order/{order}`: its lines.
    OrderLines,
    /// GET `/jobs/{after}`.
    Jobs,
    /// GET `/job/{job}`.
    Job,
    /// GET `/terminal/{terminal}`.
    Terminal,
    /// GET `/shop`.
    Shop,
    /// GET `/history/{after}`.
    History,
    /// GET `/story/order/{order}/{after}`.
    OrderStory,
    /// GET `/story/job/{job}/{after}`.
    JobStory,
    /// GET `/story/part/{act}/{node}/{after}`.
    PartStory,
    /// GET `/pieces/order/{order}`.
    OrderPieces,
    /// GET `/pieces/order/{order}/{act}/{node}`: after that name.
    OrderPiecesAfter,
    /// GET `/pieces/batch/{batch}`.
    BatchPieces,
    /// GET `/pieces/batch/{batch}/{act}/{node}`: after that name.
    BatchPiecesAfter,
    /// GET `/pieces/unit/{act}/{node}`.
    UnitPieces,
    /// GET `/pieces/unit/{act}/{node}/{after_act}/{after_node}`: after that second name.
    UnitPiecesAfter,
    /// GET `/steps/{job}`.
    Steps,
}

impl Route {
    // Its text, as the router reads it.
    fn text(self) -> &'static str
        ensures { result.now ≡ route_text self }
    {
        match self {
            Route::Message => "/message",
            Route::Plan => "/plan",
            Route::Plans => "/plans",
            Route::Bound => "/bound",
            Route::Backup => "/backup",
            Route::Totals => "/totals/{material}",
            Route::Rack => "/rack/{material}",
            Route::Trace => "/trace/{act}/{node}",
            Route::Demand => "/demand/{demand}",
            Route::Ticket => "/ticket/{job}",
            Route::Yield => "/yield/{material}",
            Route::Materials => "/materials",
            Route::Parts => "/parts/{material}",
            Route::PartsAfter => "/parts/{material}/{act}/{node}",
            Route::Demands => "/demands/{after}",
            Route::DemandsOf => "/demands/{after}/{material}",
            Route::Orders => "/orders",
            Route::OrdersAfter => "/orders/{order}",
            Route::OrderLines => "/order/{order}",
            Route::Jobs => "/jobs/{after}",
            Route::Job => "/job/{job}",
            Route::Terminal => "/terminal/{terminal}",
            Route::Shop => "/shop",
            Route::History => "/history/{after}",
            Route::OrderStory => "/story/order/{order}/{after}",
            Route::JobStory => "/story/job/{job}/{after}",
            Route::PartStory => "/story/part/{act}/{node}/{after}",
            Route::OrderPieces => "/pieces/order/{order}",
            Route::OrderPiecesAfter => "/pieces/order/{order}/{act}/{node}",
            Route::BatchPieces => "/pieces/batch/{batch}",
            Route::BatchPiecesAfter => "/pieces/batch/{batch}/{act}/{node}",
            Route::UnitPieces => "/pieces/unit/{act}/{node}",
            Route::UnitPiecesAfter => "/pieces/unit/{act}/{node}/{after_act}/{after_node}",
            Route::Steps => "/steps/{job}",
        }
    }

    // The length of what stands before its first parameter.
    pub(crate) fn start(self) -> usize
        ensures { result ≡ length (route_start self) }
    {
        match self.text().split_once('{') {
            Some((start, _)) => start.len(),
            None => self.text().len(),
        }
    }

    /// Whether it takes a body, by POST; the others are read by GET.
    pub fn takes_body(self) -> bool
        ensures { result ≡ takes_body self }
    {
        matches!(
            self,
            Route::Message | Route::Plan | Route::Plans | Route::Bound | Route::Backup
        )
    }
}

/// All routes, made once for many requests.
#[derive(Drop)]
pub struct Routes {
    router: Router<Route>,
    ghost all: { router ≡ all_routes },
}

// Adds a route.
fn add(router: &mut Router<Route>, route: Route) -> Result<(), InsertError>
    ensures { OnOk result (router.new ≡ with_route route router.old) }
{
    router.insert(route.text(), route)
}

// Adds routes in turn.
fn add_all(router: &mut Router<Route>, routes: &[Route]) -> Result<(), InsertError>
    ensures { OnOk result (router.new ≡ with_routes routes.now router.old) }
{
    let [route, more @ ..] = routes else {
        return Ok(());
    };
    add(router, *route)?;
    add_all(router, more)
}

const ROUTES: [Route; 34] = [
    Route::Message,
    Route::Plan,
    Route::Plans,
    Route::Bound,
    Route::Backup,
    Route::Totals,
    Route::Rack,
    Route::Trace,
    Route::Demand,
    Route::Ticket,
    Route::Yield,
    Route::Materials,
    Route::Parts,
    Route::PartsAfter,
    Route::Demands,
    Route::DemandsOf,
    Route::Orders,
    Route::OrdersAfter,
    Route::OrderLines,
    Route::Jobs,
    Route::Job,
    Route::Terminal,
    Route::Shop,
    Route::History,
    Route::OrderStory,
    Route::JobStory,
    Route::PartStory,
    Route::OrderPieces,
    Route::OrderPiecesAfter,
    Route::BatchPieces,
    Route::BatchPiecesAfter,
    Route::UnitPieces,
    Route::UnitPiecesAfter,
    Route::Steps,
];

#[tactic(auto, unfolding(crate::specs::Routes::all_routes))]
// All routes.
fn all(alloc: Global) -> Result<Router<Route>, InsertError>
    ensures { IfOk result (λ router. router ≡ all_routes) }
{
    let mut router = Router::new(alloc);
    add_all(&mut router, &ROUTES)?;
    Ok(router)
}

impl Routes {
    /// Makes them. The only error: memory ran out.
    pub fn new(alloc: Global) -> Result<Routes, AllocError> {
        match all(alloc) {
            Ok(router) => Ok(Routes { router }),
            Err(_) => Err(AllocError),
        }
    }

    /// The route that a path takes.
    pub fn find(&self, path: &str) -> Option<Route>
        ensures { result ≡ route_of path.now }
    {
        match self.router.at(path) {
            Ok(found) => Some(*found.value),
            Err(_) => None,
        }
    }
}
