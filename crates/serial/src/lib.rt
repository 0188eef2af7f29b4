// The top of the proof: demand 3 for any store that meets a short list of laws. There is no code here.
//
// Promises (specs/): the logical model of document 01 (Model), the lock rule and what each request needs (Locks), the history that is read off
// calls and answers alone and demand 3 as one record (Calls), and the theorem `demand-3`: a store whose calls are events of the lock machine,
// as `Laws` says, keeps all three sentences of demand 3 for every list of calls. Line has the begun sessions in the order of their begins, read off calls and
// answers alone.
// Rests on: nothing but the language's library.
#![tactic(auto)]
