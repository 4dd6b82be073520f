//! Laws of clients that are served: each contract is about the definitions alone.

ghost use Rattle.std.specs.Prelude.{◌≡◌, ◌+◌, ℕ, List, length, map, take, drop, flat_map, Some};
ghost use Rattle.std.specs.List.{All};
ghost use Rattle.crush_server.specs.Clients.{Clients, ServesClients, ServesEach, all_sent};
ghost use Rattle.crush_laws.specs.Served.{AreJust, Client, IsServed};
ghost use Rattle.tenant_core.specs.tenant_messages.specs.declared.call.Call.{Call};
ghost use Rattle.tenant_core.specs.tenant_messages.specs.declared.reply.Reply.{Reply};

/// Clients are served where each is served by itself, and the calls of all are those of the first,
/// then those of the second, and so on, and so are the replies. Where contracts know the clients
/// of a listener, it has one more output for each that sent something.
pub fn clients_are_served_one_after_the_other()
    ensures apart { (calls : List Call) (replies : List Reply) (inputs outputs : List (List ℕ)) → ServesEach (AreJust calls replies) inputs outputs
        → (clients : List Client) × (map (λ c. c.input) clients ≡ inputs) × (map (λ c. c.output) clients ≡ outputs) × All IsServed clients
        × (flat_map (λ c. c.calls) clients ≡ calls) × (flat_map (λ c. c.replies) clients ≡ replies) }
    ensures together { (clients : List Client) → All IsServed clients
        → ServesEach (AreJust (flat_map (λ c. c.calls) clients) (flat_map (λ c. c.replies) clients)) (map (λ c. c.input) clients) (map (λ c. c.output) clients) }
    ensures known { (calls : List Call) (replies : List Reply) (count : ℕ) (old new : Clients) → ServesClients (AreJust calls replies) count (Some old) (Some new)
        → (new.coming ≡ drop count old.coming) × (length new.answered ≡ length old.answered + length (all_sent (take count old.coming))) }
{}
