// The meaning of document 01: what a job text is, what a run does, what the report says, what the call answers.
// There is no code here. The definitions stand in specs/, one file for each chapter; read Call.antt first, it is what the
// promise cites, or begin with Bytes.antt and read upwards. They compute: proofs/Cases.antt has them compute every case of
// document 01 in one statement. Laws of the definitions, which the proofs of the code use, are crate `laws`.
#![tactic(auto)]
