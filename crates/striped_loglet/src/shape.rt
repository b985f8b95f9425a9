//! The numbers of a striped loglet that never change, and sums over its stripes.
ghost use Rattle.std.specs.Prelude.{◌≡◌, ℕ, ◌+◌, ◌-◌, ◌*◌, ◌/◌, ◌%◌, ◌^◌, ◌<◌, ◌≤◌, min, map, take, sum, length, slice_get, Some};
ghost use Rattle.loglet_api.specs.View.{LogletView};
ghost use Rattle.loglet_api.specs.Servers.{downs_of};
ghost use Rattle.striped_loglet.specs.Views.{total, least_of};
ghost use Rattle.striped_loglet.specs.Servings.{states_of};
ghost use Rattle.striped_loglet.specs.Shapes.{HasServer, IsShapeOf, kind_of_two as kind_of_these, kind_by, most_of};

use loglet_api::call::Kind;
use loglet_api::loglet::Loglet;

/// The numbers of a striped loglet that never change.
#[derive(Clone, Copy)]
pub struct Shape {
    pub kind: Kind,
    pub servers: u32,
    pub room: u64,
    /// Two more than the rounds of any stripe: one operation of a stripe, from before it begins
    /// until its answer is taken.
    pub turn: u64,
    pub rounds: u32,
    pub limit: u64,
}

/// The numbers of a loglet of these stripes.
pub fn shape_of<L: Loglet>(stripes: &[L]) -> Shape
    requires count { (2 ≤ length stripes.now) × (length stripes.now ≤ 8) }
    requires servers { total (λ v. v.servers) (map L.view stripes.now) ≤ 64 }
    requires rounds { total (λ v. v.rounds) (map L.view stripes.now) ≤ 2 ^ 24 }
    requires room { (i : ℕ) (v : LogletView) → slice_get (map L.view stripes.now) i ≡ Some v → length stripes.now * v.room ≤ 2 ^ 32 }
    ensures shape { IsShapeOf (map L.view stripes.now) result }
    ensures each { result.servers ≡ length (states_of (map L.serving stripes.now)) }
{
    let count = stripes.len() as u64;
    let room = stripes[0].room();
    let turn = most_rounds(stripes) as u64 + 2;
    Shape {
        kind: kind_of(stripes),
        servers: servers_of(stripes),
        room: count * room,
        turn,
        rounds: ((3 * count + 1) * turn) as u32,
        limit: least_limit(stripes) / 4,
    }
}

/// How many servers the stripes have.
fn servers_of<L: Loglet>(stripes: &[L]) -> u32
    requires { total (λ v. v.servers) (map L.view stripes.now) ≤ 64 }
    ensures value { result ≡ total (λ v. v.servers) (map L.view stripes.now) }
    ensures each { result ≡ length (states_of (map L.serving stripes.now)) }
{
    let mut servers = 0;
    for stripe in stripes {
        servers += stripe.servers();
    }
    servers
}

/// The most rounds that an operation of a stripe takes.
fn most_rounds<L: Loglet>(stripes: &[L]) -> u32
    requires { total (λ v. v.rounds) (map L.view stripes.now) ≤ 2 ^ 24 }
    ensures most { result ≤ 2 ^ 24 }
    ensures all { (i : ℕ) (v : LogletView) → slice_get (map L.view stripes.now) i ≡ Some v → v.rounds ≤ result }
    ensures value { result ≡ most_of (λ v. v.rounds) (map L.view stripes.now) }
{
    let mut rounds = 0;
    for stripe in stripes {
        rounds = stripe.rounds().max(rounds);
    }
    rounds
}

/// The least number of operations that a stripe takes.
fn least_limit<L: Loglet>(stripes: &[L]) -> u64
    requires { 0 < length stripes.now }
    ensures { result ≡ least_of (map (λ v. v.limit) (map L.view stripes.now)) }
{
    let mut limit = stripes[0].limit();
    for stripe in stripes {
        limit = stripe.limit().min(limit);
    }
    limit
}

/// Two striped loglets make a nested one.
fn kind_of<L: Loglet>(stripes: &[L]) -> Kind
    requires { length stripes.now ≤ 8 }
    ensures { result ≡ kind_by (map L.view stripes.now) }
{
    if stripes.len() != 2 {
        return Kind::Striped(stripes.len() as u8);
    }
    kind_of_two(stripes[0].kind(), stripes[1].kind())
}

fn kind_of_two(first: Kind, second: Kind) -> Kind
    ensures { result ≡ kind_of_these first second }
{
    match first {
        Kind::Striped(_) => match second {
            Kind::Striped(_) => Kind::Nested,
            _ => Kind::Striped(2),
        },
        _ => Kind::Striped(2),
    }
}

/// The faults of the stripes, in a word that stands still at its end.
pub fn faults_of<L: Loglet>(stripes: &[L]) -> u64
    ensures { result ≡ min (total (λ v. v.faults) (map L.view stripes.now)) (2 ^ 64 - 1) }
{
    let mut faults: u64 = 0;
    for stripe in stripes {
        faults = faults.saturating_add(stripe.faults());
    }
    faults
}

/// How many servers of the stripes are down.
pub fn down_of<L: Loglet>(stripes: &[L]) -> u32
    requires { total (λ v. v.down) (map L.view stripes.now) ≤ 64 }
    ensures value { result ≡ total (λ v. v.down) (map L.view stripes.now) }
    ensures each { result ≡ downs_of (states_of (map L.serving stripes.now)) }
{
    let mut down = 0;
    for stripe in stripes {
        down += stripe.down();
    }
    down
}

/// The stripe that has a server, and the server's number there: the servers are numbered stripe by
/// stripe.
pub fn place_of<L: Loglet>(stripes: &[L], server: u32) -> (usize, u32)
    requires { server < total (λ v. v.servers) (map L.view stripes.now) }
    ensures place { HasServer (map L.view stripes.now) server result.0 result.1 }
    ensures each { server ≡ length (states_of (take result.0 (map L.serving stripes.now))) + result.1 }
{
    let mut rest = server;
    let mut i = 0;
    while i + 1 < stripes.len() {
        let servers = stripes[i].servers();
        if rest < servers {
            return (i, rest);
        }
        rest -= servers;
        i += 1;
    }
    (i, rest)
}

/// The stripe that a stray's word picks, and the word of that stripe's own stray.
pub fn picked(word: u64, count: u64) -> (usize, u64)
    requires { 0 < count }
    ensures stripe { result.0 ≡ word % count }
    ensures rest { result.1 ≡ word / count }
{
    ((word % count) as usize, word / count)
}
