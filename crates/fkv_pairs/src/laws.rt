//! A law of the chains of a store.
ghost use Rattle.std.specs.Prelude.{ℕ, List};
ghost use Rattle.fkv_chains.specs.Entries.{IsEntry};
ghost use Rattle.fkv_opening.specs.declared.opened_store.Opened.{Opened};
ghost use Rattle.fkv_opening.specs.Opened.{IsStoreOf};
ghost use Rattle.fkv_pairs.specs.Pairs.{log_of_store, IsChainOf};

use fkv_record::law_spellings_apart;

/// In a store the chain of a home leads from its entry to the records that count for the home, all of them and no others,
/// and addresses fall along it. So the newest record of a key is the first of that key on the chain.
pub fn law_chain_of_entry()
    ensures { (image : List ℕ) (opened : Opened) (store : IsStoreOf image opened) (its_home entry : ℕ) → IsEntry (log_of_store image opened store) its_home entry → IsChainOf (log_of_store image opened store) its_home entry }
{
    law_spellings_apart();
}
